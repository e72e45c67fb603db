//! A core tree whole. Its invariant is one record, `IsCore`: the rows are an arena with the program at its head; each name,
//! text, local and scope that a row names is there; each scope is the one that its row opens, and stands behind its home.
ghost use Rattle.std.specs.Prelude.{◌≡◌, ◌<◌, length, slice_get, Some};
ghost use Rattle.cr_core.specs.Tree.{IsCore};

use crate::form::{ScopeId, TextId};
use crate::row::Row;
use crate::scope::Scope;
use cr_base::{NameId, NodeId};
use cr_syntax::Names;
use std::marker::Model;

/// The core tree of a program with its prelude.
#[derive(Drop)]
pub struct CoreTree {
    rows: Vec<Row>,
    scopes: Vec<Scope>,
    names: Names,
    texts: Names,
}

impl Model for CoreTree {
    ghost use Rattle.cr_core.specs.Tree.{Contents, IsCore};

    ghost Value = { Contents };

    ghost view = { λ t. record { rows = t.rows.items; scopes = t.scopes.items; names = t.names; texts = t.texts } };

    ghost invariant = { λ t. IsCore (record { rows = t.rows.items; scopes = t.scopes.items; names = t.names; texts = t.texts }) };
}

impl CoreTree {
    /// The core tree of these rows, scopes, names and texts. Takes no memory.
    pub fn new(rows: Vec<Row>, scopes: Vec<Scope>, names: Names, texts: Names) -> Self
        requires { IsCore (record { rows = rows.items; scopes = scopes.items; names = names; texts = texts }) }
        ensures { result ≡ record { rows = rows.items; scopes = scopes.items; names = names; texts = texts } }
    {
        CoreTree {
            rows,
            scopes,
            names,
            texts,
        }
    }

    /// How many rows it has. The first is the program's.
    pub fn len(&self) -> usize
        ensures { result ≡ length self.now.rows }
    {
        self.rows.len()
    }

    /// The row of a node. Takes no memory.
    pub fn row(&self, at: NodeId) -> &Row
        requires { at.0 < length self.now.rows }
        ensures { slice_get self.now.rows at.0 ≡ Some result.now }
    {
        &self.rows[at.0 as usize]
    }

    /// All rows, in preorder. Takes no memory.
    pub fn rows(&self) -> &[Row]
        ensures rows { result.now ≡ self.now.rows }
        ensures core { IsCore self.now }
    {
        self.rows.as_slice()
    }

    /// How many scopes it has. The first is the top level's.
    pub fn scope_count(&self) -> usize
        ensures { result ≡ length self.now.scopes }
    {
        self.scopes.len()
    }

    /// A scope by its number. Takes no memory.
    pub fn scope(&self, at: ScopeId) -> &Scope
        requires { at.0 < length self.now.scopes }
        ensures { slice_get self.now.scopes at.0 ≡ Some result.now }
    {
        &self.scopes[at.0 as usize]
    }

    /// All names, those of instance variables with their `@`. Takes no memory.
    pub fn names(&self) -> &Names
        ensures { result.now ≡ self.now.names }
    {
        &self.names
    }

    /// How many texts it has.
    pub fn text_count(&self) -> usize
        ensures { result ≡ length self.now.texts }
    {
        self.texts.len()
    }

    /// A text by its number. Takes no memory.
    pub fn text(&self, at: TextId) -> &str
        requires { at.0 < length self.now.texts }
        ensures { slice_get self.now.texts at.0 ≡ Some result.now }
    {
        self.texts.text(NameId(at.0))
    }
}
