ghost use Rattle.std.specs.Prelude.{◌≡◌, ◌<◌, [], length, slice_get, Some, IfOk, OnOk, OnErr, IsTrue, ◌↔◌};
ghost use Rattle.std.specs.List.{IsDistinct};
ghost use Rattle.std.specs.Str.{bytes_eq};
ghost use Rattle.cr_syntax.specs.Names.{name_place, with_name};

use cr_base::{NameId, NoMemory};
use indexmap::IndexSet;
use std::alloc::Global;
use std::marker::Model;

/// Names, each once, in the order in which they first came.
#[derive(Drop)]
pub struct Names {
    alloc: Global,
    texts: IndexSet<String>,
}

impl Model for Names {
    ghost use Rattle.std.specs.Prelude.{List, ℕ, ◌^◌, ◌≤◌, map, length};
    ghost use Rattle.std.specs.String.{string_bytes};

    ghost Value = { List (List ℕ) };

    ghost view = { λ n. map string_bytes n.texts.keys };

    ghost invariant = { λ n. length n.texts.keys ≤ 2 ^ 32 };
}

impl Names {
    /// No names, and no memory taken.
    pub fn new(alloc: Global) -> Names
        ensures { result ≡ [] }
    {
        Names {
            alloc,
            texts: IndexSet::new(alloc),
        }
    }

    /// How many names there are.
    pub fn len(&self) -> usize
        ensures length { result ≡ length self.now }
        ensures distinct { IsDistinct bytes_eq self.now }
    {
        self.texts.len()
    }

    /// Whether there is no name.
    pub fn is_empty(&self) -> bool
        ensures { IsTrue result ↔ (self.now ≡ []) }
    {
        self.len() == 0
    }

    /// The place of the text. A new text goes last. More than 2 ^ 32 names are too many for memory.
    pub fn intern(&mut self, text: &str) -> Result<NameId, NoMemory>
        ensures place { IfOk result (λ id. id.0 ≡ name_place self.old text.now) }
        ensures ok { OnOk result (self.new ≡ with_name self.old text.now) }
        ensures err { OnErr result (self.new ≡ self.old) }
    {
        if let Some(place) = self.texts.get_index_of(text) {
            return Ok(NameId(place as u32));
        }
        if self.texts.len() > u32::MAX as usize {
            return Err(NoMemory);
        }
        let (place, _) = self.texts.insert_full(String::from_str(self.alloc, text)?)?;
        Ok(NameId(place as u32))
    }

    /// The name at a place.
    pub fn text(&self, id: NameId) -> &str
        requires { id.0 < length self.now }
        ensures { slice_get self.now id.0 ≡ Some result.now }
    {
        self.texts[id.0 as usize].as_str()
    }
}
