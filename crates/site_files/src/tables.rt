//! The tables of a site's file.

ghost use Rattle.std.specs.Prelude.{◌≤◌, IfOk, OnOk};
ghost use Rattle.sqlite_trees.specs.View.{doubt};
ghost use Rattle.sqlite.specs.Held.{state};
ghost use Rattle.site_rows.specs.Calls.{IfClean};
ghost use Rattle.site_files.specs.Files.{IsNumbered, WasClean};

use crate::error::FileError;
use sqlite::{Alter, Connection};
use sqlite_trees::error::StoreError;
use sqlite_trees::schema::Object;
use sqlite_trees::store::Shape;
use sqlite_value::keys::Order;
use sqlite_value::row::Row;
use sqlite_value::value::ValueRef;
use std::alloc::{AllocError, Global};

const CREDENTIAL: &str = "CREATE TABLE credential (
  place INTEGER PRIMARY KEY,
  id BLOB NOT NULL,
  user_handle BLOB NOT NULL,
  algorithm INTEGER NOT NULL,
  x BLOB NOT NULL,
  y BLOB,
  sign_count INTEGER NOT NULL,
  backup_eligible INTEGER,
  retired INTEGER NOT NULL
) STRICT";

const SESSION: &str = "CREATE TABLE session (
  number INTEGER PRIMARY KEY,
  ceremony TEXT NOT NULL,
  challenge BLOB NOT NULL,
  user_handle BLOB,
  user_verification INTEGER NOT NULL,
  algorithms TEXT,
  began_at INTEGER NOT NULL,
  allow_1 BLOB,
  allow_2 BLOB,
  allow_3 BLOB,
  allow_4 BLOB,
  allow_5 BLOB,
  allow_6 BLOB,
  allow_7 BLOB,
  allow_8 BLOB
) STRICT";

const SITE: &str = "CREATE TABLE site (
  number INTEGER PRIMARY KEY,
  version INTEGER NOT NULL,
  rp_id TEXT NOT NULL,
  next_session INTEGER NOT NULL
) STRICT";

const BY_ID: &str = "CREATE UNIQUE INDEX credential_by_id ON credential (id)";

const BY_USER: &str = "CREATE INDEX credential_by_user ON credential (user_handle)";

const DETAIL: &str = "CREATE TABLE detail (
  place INTEGER PRIMARY KEY,
  created_at INTEGER,
  used_at INTEGER,
  transports TEXT NOT NULL,
  aaguid BLOB
) STRICT";

const MARK: &str = "CREATE TABLE mark (
  number INTEGER PRIMARY KEY,
  mark BLOB NOT NULL,
  follows BLOB NOT NULL,
  sum BLOB NOT NULL
) STRICT";

const SEAL_KEY: &str = "CREATE TABLE seal_key (
  number INTEGER PRIMARY KEY,
  key BLOB NOT NULL
) STRICT";

const ENDED_SESSION: &str = "CREATE TABLE ended_session (
  number INTEGER PRIMARY KEY,
  how INTEGER NOT NULL,
  until INTEGER NOT NULL
) STRICT";

const ENDED_USER: &str = "CREATE TABLE ended_user (
  number INTEGER PRIMARY KEY,
  below INTEGER NOT NULL,
  until INTEGER NOT NULL
) STRICT";

/// Writes the key of a site that an earlier version has made.
const PUT_KEY: &str = "INSERT INTO seal_key VALUES (1, ?1)";

/// What makes the tables of a new file: those of version 1, of them those of version 2, and so on.
static NEW: [&str; 14] = [
    CREDENTIAL,
    SESSION,
    SITE,
    BY_ID,
    BY_USER,
    "DROP TABLE session",
    DETAIL,
    "UPDATE site SET version = 2",
    MARK,
    "UPDATE site SET version = 3",
    SEAL_KEY,
    ENDED_SESSION,
    ENDED_USER,
    "UPDATE site SET version = 4",
];

/// Writes a key, where one is given.
fn put_key<S: Alter>(conn: &mut Connection<S>, key: Option<&[u8; 32]>) -> Result<(), FileError>
    ensures clean { doubt (state S.Store conn.old).is_clean ≤ doubt (state S.Store conn.new).is_clean }
{
    if let Some(key) = key {
        conn.execute(PUT_KEY, &[ValueRef::Blob(key)])?;
    }
    Ok(())
}

/// Runs these texts, and writes the key of a site, in one transaction.
fn run<S: Alter>(
    conn: &mut Connection<S>,
    texts: &[&str],
    key: Option<&[u8; 32]>,
) -> Result<(), FileError>
    ensures clean { OnOk result (doubt (state S.Store conn.old).is_clean ≤ doubt (state S.Store conn.new).is_clean) }
{
    conn.execute_batch("BEGIN")?;
    for text in texts {
        conn.execute_batch(text)?;
    }
    put_key(conn, key)?;
    conn.execute_batch("COMMIT")?;
    Ok(())
}

/// What these texts make of a store with the key of a site, all of them or none.
fn changed<S: Alter + Drop>(
    alloc: Global,
    mut store: S,
    texts: &[&str],
    key: Option<&[u8; 32]>,
) -> Result<S, (FileError, S)>
    requires numbered { IfClean (S.Store.view store) IsNumbered }
    ensures clean { IfOk result (λ new. WasClean (S.Store.view store) (S.Store.view new)) }
    ensures numbered { IfOk result (λ new. IfClean (S.Store.view new) IsNumbered) }
{
    store.rollback();
    if store.is_broken() {
        return Err((FileError::Failed(StoreError::Broken), store));
    }
    let mut conn = match Connection::over(alloc, store) {
        Ok(conn) => conn,
        Err((e, store)) => return Err((e.into(), store)),
    };
    let done = run(&mut conn, texts, key);
    let store = conn.into_store();
    match done {
        Ok(()) => Ok(store),
        Err(e) => Err((e, store)),
    }
}

/// Makes the tables of a site in a store that lists nothing.
pub fn made<S: Alter + Drop>(alloc: Global, store: S) -> Result<S, (FileError, S)>
    requires numbered { IfClean (S.Store.view store) IsNumbered }
{
    changed(alloc, store, &NEW, None)
}

/// An earlier version.
#[derive(Clone, Copy, PartialEq, Eq, Drop)]
pub enum Earlier {
    First,
    Second,
    Third,
}

/// Makes the tables of version 4 of those of an earlier one, and the row of its key where it has a site. The open sessions of version 1
/// end.
pub fn upgraded<S: Alter + Drop>(
    alloc: Global,
    version: Earlier,
    key: Option<&[u8; 32]>,
    store: S,
) -> Result<S, (FileError, S)>
    requires numbered { IfClean (S.Store.view store) IsNumbered }
    ensures clean { IfOk result (λ new. WasClean (S.Store.view store) (S.Store.view new)) }
{
    match version {
        Earlier::First => changed(alloc, store, &NEW[3..], key),
        Earlier::Second => changed(alloc, store, &NEW[8..], key),
        Earlier::Third => changed(alloc, store, &NEW[10..], key),
    }
}

/// What a file lists.
#[derive(Clone, Copy, PartialEq, Eq, Drop)]
pub enum Listed {
    /// Nothing.
    Nothing,
    /// The tables, and indices, of an earlier version.
    Earlier(Earlier),
    /// The tables and indices of version 4.
    Latest,
    /// Something else.
    Other,
}

impl Listed {
    /// Whether each commit has its mark, as it has since version 3.
    pub fn has_marks(self) -> bool {
        matches!(self, Listed::Latest | Listed::Earlier(Earlier::Third))
    }
}

fn table<'a>(name: &'a str, text: &'a str) -> Object<'a> {
    Object {
        shape: Shape::Table,
        kind: "table",
        name,
        table: name,
        reals: 0,
        sql: Some(text),
    }
}

/// An index of the credentials.
fn index<'a>(name: &'a str, text: &'a str) -> Object<'a> {
    Object {
        shape: Shape::Index(Order::PLAIN),
        kind: "index",
        name,
        table: "credential",
        reals: 0,
        sql: Some(text),
    }
}

/// No object.
fn gap<'a>() -> Object<'a> {
    Object {
        shape: Shape::Absent,
        kind: "",
        name: "",
        table: "",
        reals: 0,
        sql: None,
    }
}

/// The objects of version 1, by the numbers of their trees.
fn first<'a>() -> [Object<'a>; 3] {
    [
        table("credential", CREDENTIAL),
        table("session", SESSION),
        table("site", SITE),
    ]
}

/// Those of version 4: its first six are those of version 2, and its first seven those of version 3.
pub fn latest<'a>() -> [Object<'a>; 10] {
    [
        table("credential", CREDENTIAL),
        gap(),
        table("site", SITE),
        index("credential_by_id", BY_ID),
        index("credential_by_user", BY_USER),
        table("detail", DETAIL),
        table("mark", MARK),
        table("seal_key", SEAL_KEY),
        table("ended_session", ENDED_SESSION),
        table("ended_user", ENDED_USER),
    ]
}

/// The row of a file's list for the object of a tree.
fn row_of(alloc: Global, tree: u32, object: &Object<'_>) -> Result<Row, AllocError> {
    let mut row = Row::new(alloc);
    row.push(ValueRef::Int(i64::from(tree) + 1))?;
    row.push(ValueRef::Text(object.kind.as_bytes()))?;
    row.push(ValueRef::Text(object.name.as_bytes()))?;
    row.push(ValueRef::Text(object.table.as_bytes()))?;
    row.push(match object.sql {
        Some(text) => ValueRef::Text(text.as_bytes()),
        None => ValueRef::Null,
    })?;
    Ok(row)
}

/// The rows of a file's list for the objects of its trees.
fn rows_of(alloc: Global, objects: &[Object<'_>]) -> Result<Vec<Row>, AllocError> {
    let mut rows = Vec::new(alloc);
    for at in 0..objects.len() {
        if objects[at].shape != Shape::Absent {
            let tree = u32::try_from(at).unwrap_or(0);
            rows.push(row_of(alloc, tree, &objects[at])?)?;
        }
    }
    Ok(rows)
}

/// Whether the rows of a file's list are just these.
fn are_same(rows: &[Row], wanted: &[Row]) -> bool {
    if rows.len() != wanted.len() {
        return false;
    }
    for at in 0..rows.len() {
        if !rows[at].is_same(&wanted[at]) {
            return false;
        }
    }
    true
}

/// What the rows of a file's list are: just the objects of a version with these texts, nothing, or something else.
pub fn list_in(alloc: Global, rows: &[Row]) -> Result<Listed, AllocError> {
    let first = rows_of(alloc, &first())?;
    let latest = latest();
    let second = rows_of(alloc, &latest[..6])?;
    let third = rows_of(alloc, &latest[..7])?;
    let latest = rows_of(alloc, &latest)?;
    Ok(if rows.is_empty() {
        Listed::Nothing
    } else if are_same(rows, first.as_slice()) {
        Listed::Earlier(Earlier::First)
    } else if are_same(rows, second.as_slice()) {
        Listed::Earlier(Earlier::Second)
    } else if are_same(rows, third.as_slice()) {
        Listed::Earlier(Earlier::Third)
    } else if are_same(rows, latest.as_slice()) {
        Listed::Latest
    } else {
        Listed::Other
    })
}

/// What a store lists.
pub fn list_of<S: Alter>(alloc: Global, store: &S) -> Result<Listed, FileError> {
    let rows = store.objects(alloc)?;
    Ok(list_in(alloc, rows.as_slice())?)
}
