//! The numbers of requests that no run of `submit` sends, and the examples of pages. The program's runs are tested by
//! tests/program/submissions.

mod numbers;
mod page_service;
mod page_tree;
mod pages;
