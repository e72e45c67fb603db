//! The walk round the core trees so far, with the names behind it.

ghost use Rattle.std.specs.Prelude.{◌≡◌, ◌∷◌, [], IfOk, OnOk};
ghost use Rattle.cr_core.specs.declared.row.Event.TheVariants as e;
ghost use Rattle.cr_making.specs.Naming as n;
ghost use Rattle.cr_making.specs.Words as w;
ghost use Rattle.cr_making.specs.Making.{wrapped, nothing};
ghost use Rattle.cr_making.specs.Made.{Makes, Begins, Puts, Steps, Leaves, Turns, Enters, Rejoins, closes};

use crate::naming::{Apart, Naming, Passed};
use crate::words::{assigned_text, joined_path};
use cr_base::{NameId, NoMemory};
use cr_core::{Event, Form, Local, Place, ScopeId, TextId};
use cr_grammar::Assignment;
use cr_syntax::TokenText;
use sqlite_items::Items;

/// The walk so far, and the names.
#[derive(Drop)]
pub struct Maker {
    pub events: Vec<Event>,
    pub naming: Naming,
}

impl Maker {
    /// A node begins.
    pub fn open(&mut self, form: Form, at: u32) -> Result<(), NoMemory>
        ensures { OnOk result (Begins form at self.old self.new) }
    {
        let place = Place {
            prelude: self.naming.prelude,
            at,
        };
        self.events.push(Event::Open(form, place))?;
        Ok(())
    }

    /// The node that began last ends.
    pub fn close(&mut self) -> Result<(), NoMemory>
        ensures { OnOk result (Puts (e.Close ∷ []) self.old self.new) }
    {
        self.events.push(Event::Close)?;
        Ok(())
    }

    /// Ends so many nodes.
    pub fn close_all(&mut self, count: usize) -> Result<(), NoMemory>
        ensures { OnOk result (Puts (closes count) self.old self.new) }
    {
        for i in 0..count {
            self.close()?;
        }
        Ok(())
    }

    /// A node without parts.
    #[tactic(auto, using(crate::proofs::Done::leaf_made))]
    pub fn leaf(&mut self, form: Form, at: u32) -> Result<(), NoMemory>
        ensures { OnOk result (Makes (wrapped form at nothing) self.old self.new) }
    {
        self.open(form, at)?;
        self.close()
    }

    /// The number of a name, which is new where the name is.
    pub fn name(&mut self, text: &str) -> Result<NameId, NoMemory>
        ensures { IfOk result (λ id. Steps (n.named text.now) self.old id self.new) }
    {
        self.naming.name(text)
    }

    /// The number of the name that a token holds.
    pub fn token_name(&mut self, text: &TokenText) -> Result<NameId, NoMemory>
        ensures { IfOk result (λ id. Steps (n.named text.now) self.old id self.new) }
    {
        self.name(text.as_str())
    }

    /// The path of a class in one name.
    pub fn path_name(&mut self, path: &Items<TokenText>) -> Result<NameId, NoMemory>
        ensures { IfOk result (λ id. Steps (n.named (w.path_name path.now)) self.old id self.new) }
    {
        let text = joined_path(self.naming.alloc, path.as_slice())?;
        self.name(text.as_str())
    }

    /// The name of the method that `r.name = v` calls.
    pub fn setter(&mut self, text: &TokenText) -> Result<NameId, NoMemory>
        ensures { IfOk result (λ id. Steps (n.named (w.setter text.now)) self.old id self.new) }
    {
        let mut name = String::from_str(self.naming.alloc, text.as_str())?;
        name.push_str("=")?;
        self.name(name.as_str())
    }

    /// The name of an instance variable, with its `@`.
    pub fn variable(&mut self, text: &TokenText) -> Result<NameId, NoMemory>
        ensures { IfOk result (λ id. Steps (n.named (w.variable text.now)) self.old id self.new) }
    {
        let mut name = String::from_str(self.naming.alloc, "@")?;
        name.push_str(text.as_str())?;
        self.name(name.as_str())
    }

    /// The name of the operator that a compound assignment calls.
    pub fn assigned_name(&mut self, operator: Assignment) -> Result<NameId, NoMemory>
        ensures { IfOk result (λ id. Steps (n.named (w.assigned_operator operator)) self.old id self.new) }
    {
        self.name(assigned_text(operator))
    }

    /// The number of a text, which is new where the text is.
    pub fn literal(&mut self, text: &str) -> Result<TextId, NoMemory>
        ensures { IfOk result (λ id. Steps (n.literal text.now) self.old id self.new) }
    {
        self.naming.literal(text)
    }

    /// One more local of the innermost scope.
    pub fn declare(&mut self, name: Option<NameId>) -> Result<Local, NoMemory>
        ensures { IfOk result (λ local. Steps (n.declared name) self.old local self.new) }
    {
        self.naming.declare(name)
    }

    /// A new local without a name, and so many more behind it.
    pub fn fresh(&mut self, more: usize) -> Result<Local, NoMemory>
        ensures { IfOk result (λ local. Steps (n.fresh more) self.old local self.new) }
    {
        self.naming.fresh(more)
    }

    /// The local that the name stands for, if it stands for one.
    pub fn found(&mut self, name: NameId) -> Result<Option<Local>, NoMemory>
        ensures { IfOk result (λ local. Steps (n.found name) self.old local self.new) }
    {
        self.naming.resolve(name)
    }

    /// The local that an assignment to the name means.
    pub fn target(&mut self, name: NameId) -> Result<Local, NoMemory>
        ensures { IfOk result (λ local. Steps (n.target name) self.old local self.new) }
    {
        self.naming.target(name)
    }

    /// The locals of the innermost scope so far are its parameters. Gives how many they are.
    pub fn with_parameters(&mut self) -> usize
        ensures { Steps n.with_parameters self.old result self.new }
    {
        self.naming.with_parameters()
    }

    /// The parameters of the running method.
    pub fn passed(&mut self) -> Result<Passed, NoMemory>
        ensures { IfOk result (λ passed. Steps n.passed self.old passed self.new) }
    {
        self.naming.passed()
    }

    /// Begins a scope that sees those around it.
    pub fn enter(&mut self) -> Result<ScopeId, NoMemory>
        ensures { IfOk result (λ number. Steps n.entered self.old number self.new) }
    {
        self.naming.enter()
    }

    /// Ends the innermost scope.
    pub fn leave(&mut self)
        ensures { Leaves self.old self.new }
    {
        self.naming.leave();
    }

    /// Begins a scope that sees none around it.
    pub fn enter_apart(&mut self) -> Result<Apart, NoMemory>
        ensures { IfOk result (λ apart. Enters self.old apart self.new) }
    {
        self.naming.enter_apart()
    }

    /// Ends the innermost scope, and goes back to what was open outside it.
    pub fn rejoin(&mut self, apart: Apart)
        ensures { Rejoins apart self.old self.new }
    {
        self.naming.rejoin(apart);
    }

    /// Goes over to the prelude's text, or to the source's.
    pub fn turn(&mut self, prelude: bool)
        ensures { Turns prelude self.old self.new }
    {
        self.naming.prelude = prelude;
    }

    /// Sets the events so far aside.
    pub fn set_aside(&mut self) -> Vec<Event>
        ensures events { result.items ≡ self.old.events.items }
        ensures empty { self.new.events.items ≡ [] }
        ensures naming { self.new.naming ≡ self.old.naming }
    {
        std::mem::replace(&mut self.events, Vec::new(self.naming.alloc))
    }

    /// Puts these events in the place of those so far, which it gives back.
    pub fn put_back(&mut self, events: Vec<Event>) -> Vec<Event>
        ensures events { result.items ≡ self.old.events.items }
        ensures now { self.new.events.items ≡ events.items }
        ensures naming { self.new.naming ≡ self.old.naming }
    {
        std::mem::replace(&mut self.events, events)
    }

    /// Puts these events behind those so far.
    pub fn add(&mut self, events: Vec<Event>) -> Result<(), NoMemory>
        ensures { OnOk result (Puts events.items self.old self.new) }
    {
        let mut events = events;
        self.events.append(&mut events)?;
        Ok(())
    }
}
