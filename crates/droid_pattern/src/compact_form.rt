//! Packs the tokens of a pattern into the compact form in which it stays in memory: cells, and a pool of bytes.
//!
//! `cells_len` and `pool_len` have no contract: they are the capacities of the two vectors, and a wrong one would cost
//! memory, but change no pattern.

ghost use Rattle.std.specs.Prelude.{◌≡◌, ◌++◌, ℕ, List, map, IfOk, OnOk};
ghost use Rattle.std.specs.List.{flat_map};
ghost use Rattle.droid_pattern.specs.Tokens.{element_of, element_of_class};
ghost use Rattle.droid_pattern.specs.Cells.{element_at, elements_at, elements_of, more_of};

use crate::cell::Cell;
use crate::class::Class;
use crate::pool::{put_choice, short_of};
use crate::short::{Short, put_number};
use crate::token::Token;
use std::alloc::{AllocError, Global};

/// The cells of a pattern, and the pool of bytes that some cells point into.
///
/// A cell stands for one element, or for several stars in a row.
#[derive(Drop)]
pub(crate) struct Packed {
    pub(crate) cells: Vec<Cell>,
    pub(crate) pool: Vec<u8>,
}

/// Converts the tokens to the compact form: a cell for each, but one for several stars in a row. Both vectors get the
/// exact capacity that they need, which saves memory; no clause asks for it.
pub(crate) fn pack(alloc: Global, tokens: &[Token]) -> Result<Packed, AllocError>
    ensures { IfOk result (λ packed. elements_of packed ≡ map element_of tokens.now) }
{
    let mut cells = Vec::with_capacity(alloc, cells_len(tokens))?;
    let mut pool = Vec::with_capacity(alloc, pool_len(tokens))?;
    for token in tokens {
        let cell = put(&mut pool, token)?;
        add(&mut cells, cell)?;
    }
    Ok(Packed { cells, pool })
}

/// Returns the number of cells that the tokens need: one each, but none for a star that follows a star.
fn cells_len(tokens: &[Token]) -> usize {
    let mut len = 0usize;
    let mut behind_star = false;
    for token in tokens {
        let star = token.is_star();
        if !star || !behind_star {
            len = len.saturating_add(1);
        }
        behind_star = star;
    }
    len
}

/// Returns the number of bytes that `put` adds to the pool for all tokens.
fn pool_len(tokens: &[Token]) -> usize {
    let mut len = 0usize;
    for token in tokens {
        len = len.saturating_add(token.pool_len());
    }
    len
}

/// Adds a cell at the end. If it and the last cell are stars, joins them instead: the last cell then counts one more.
fn add(cells: &mut Vec<Cell>, cell: Cell) -> Result<(), AllocError>
    ensures { OnOk result ((pool : List ℕ)
        → flat_map (elements_at pool) cells.new.items
        ≡ flat_map (elements_at pool) cells.old.items ++ elements_at pool cell) }
{
    if let Some(last) = cells.last_mut() {
        if let Some(joined) = last.joined(cell) {
            *last = joined;
            return Ok(());
        }
    }
    cells.push(cell)?;
    Ok(())
}

/// Returns the cell of this token, and adds to the end of the pool what doesn't fit into the cell: the two numbers of a
/// gap, or the alternatives of a choice. `Token::pool_len` counts these bytes for the capacity.
fn put(pool: &mut Vec<u8>, token: &Token) -> Result<Cell, AllocError>
    ensures grown { OnOk result ((added : List ℕ) × (pool.new.items ≡ pool.old.items ++ added)) }
    ensures one { IfOk result (λ cell. more_of cell ≡ 0) }
    // The cell keeps its meaning when more bytes are added to the pool later.
    ensures stays { IfOk result (λ cell.
        (more : List ℕ) → element_at (pool.new.items ++ more) cell ≡ element_of token.now) }
{
    match token {
        Token::One(class) => Ok(cell_of_class(*class)),
        Token::AnyByte => Ok(Cell::AnyByte),
        Token::OpenGap { least: 0 } => Ok(Cell::Stars {
            more: Short::new(0),
        }),
        Token::OpenGap { least } => Ok(Cell::OpenGap {
            least: Short::new(*least),
        }),
        Token::Gap { least, more } => {
            let at = Short::new(short_of(pool.len())?);
            put_number(pool, *least)?;
            put_number(pool, *more)?;
            Ok(Cell::Gap { at })
        }
        Token::Choice(alternatives) => {
            let start = Short::new(short_of(pool.len())?);
            put_choice(pool, alternatives)?;
            Ok(Cell::Choice { at: start })
        }
    }
}

/// Returns the cell that matches one byte of the class. It fits into a cell, so the pool doesn't matter.
fn cell_of_class(class: Class) -> Cell
    ensures element { (pool : List ℕ) → element_at pool result ≡ element_of_class class }
    ensures one { more_of result ≡ 0 }
{
    match class {
        Class::Byte(wanted) => Cell::Byte(wanted),
        Class::Range { low, high } => Cell::Range { low, high },
        Class::Except(barred) => Cell::Except(barred),
    }
}
