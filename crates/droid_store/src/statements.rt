//! All SQL statements of the store.
//!
//! A new column stands in the CREATE, in the INSERT, in each SELECT that returns it, in `specs/Tables.antt`,
//! `specs/Encoded.antt` and `specs/Shown.antt`, and in `row_change` and `row_reader`, which name columns by their
//! place. The prover ties all of these.

pub(crate) const MAKE_PROFILES: &str =
    "CREATE TABLE profiles (id INTEGER PRIMARY KEY, scan_limit INTEGER NOT NULL, match_all INTEGER NOT NULL, nodes \
    INTEGER NOT NULL, hash INTEGER NOT NULL) STRICT";

pub(crate) const MAKE_NODES: &str =
    "CREATE TABLE nodes (profile INTEGER NOT NULL, id INTEGER NOT NULL, parent INTEGER NOT NULL, modified INTEGER NOT \
    NULL, state INTEGER NOT NULL, size INTEGER NOT NULL, piece_size INTEGER NOT NULL, method INTEGER NOT NULL, \
    mismatch INTEGER NOT NULL, name TEXT NOT NULL, path TEXT NOT NULL, formats TEXT NOT NULL, hash BLOB NOT NULL, \
    PRIMARY KEY (profile, id), UNIQUE (profile, parent, name)) STRICT";

pub(crate) const MAKE_REPLIES: &str =
    "CREATE TABLE replies (seq INTEGER PRIMARY KEY, client INTEGER NOT NULL, number INTEGER NOT NULL, version INTEGER \
    NOT NULL, kind INTEGER NOT NULL, mark BLOB NOT NULL, body BLOB NOT NULL, UNIQUE (client, number)) STRICT";

pub(crate) const ADD_PROFILE: &str =
    "INSERT INTO profiles (id, scan_limit, match_all, nodes, hash) VALUES (?1, ?2, ?3, 0, ?4)";

pub(crate) const ADD_NODE: &str =
    "INSERT INTO nodes (profile, id, parent, modified, state, size, piece_size, method, mismatch, name, path, formats, \
    hash) VALUES (?1, ?2, ?3, ?4, ?5, ?6, ?7, 0, 0, ?8, ?9, '', x'')";

pub(crate) const COUNT_NODES: &str = "UPDATE profiles SET nodes = ?2 WHERE id = ?1";

pub(crate) const FINISH_NODE: &str =
    "UPDATE nodes SET state = 2, method = ?3, mismatch = ?4, formats = ?5, hash = ?6 WHERE profile = ?1 AND id = ?2";

pub(crate) const REMOVE_NODE: &str = "DELETE FROM nodes WHERE profile = ?1 AND id = ?2";

pub(crate) const ADD_REPLY: &str =
    "INSERT INTO replies (client, number, version, kind, mark, body) VALUES (?1, ?2, ?3, ?4, ?5, ?6)";

pub(crate) const FIND_PROFILE: &str =
    "SELECT scan_limit, match_all, nodes, hash FROM profiles WHERE id = ?1";

pub(crate) const FIND_NODE: &str =
    "SELECT id, parent, modified, state, size, piece_size, method, mismatch, name, path, formats, hash FROM nodes \
    WHERE profile = ?1 AND id = ?2";

pub(crate) const FIND_CHILD: &str =
    "SELECT id FROM nodes WHERE profile = ?1 AND parent = ?2 AND name = ?3";

pub(crate) const FIND_REPLY: &str =
    "SELECT version, kind, mark, body FROM replies WHERE client = ?1 AND number = ?2";

pub(crate) const LIST_RECORDS: &str =
    "SELECT id, parent, modified, state, size, piece_size, method, mismatch, name, path, formats, hash FROM nodes \
    WHERE profile = ?1 AND state <> 1 ORDER BY id";
