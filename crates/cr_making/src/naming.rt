//! Names, texts and locals, as they come in the order of the text.

ghost use Rattle.std.specs.Prelude.{◌≡◌, ◌++◌, ◌∷◌, [], reverse, IfOk, OnOk};
ghost use Rattle.cr_making.specs.Made.{SetsApart, rejoined_to};
ghost use Rattle.cr_making.specs.Naming as spec;

use crate::slots::Slots;
use cr_base::{NameId, NoMemory};
use cr_core::{Local, ScopeId, TextId};
use cr_syntax::Names;
use std::alloc::Global;

/// A scope that is open: its number, its locals so far, and how many of them are parameters.
#[derive(Drop)]
pub struct Opened {
    pub number: ScopeId,
    pub slots: Slots,
    pub parameters: usize,
}

/// The names and texts so far, the locals of the scopes that have ended, the scopes that are open, and whether the text is that
/// of the prelude.
#[derive(Drop)]
pub struct Naming {
    pub alloc: Global,
    pub names: Names,
    pub texts: Names,
    pub scopes: Vec<Slots>,
    pub inner: Opened,
    pub around: Vec<Opened>,
    pub prelude: bool,
}

/// A scope that sees none around it, and what is open outside it.
#[derive(Drop)]
pub struct Apart {
    pub number: ScopeId,
    pub inner: Opened,
    pub around: Vec<Opened>,
}

/// The parameters of a method: the first local, and how many they are.
#[derive(Clone, Copy)]
pub struct Passed {
    pub first: Local,
    pub count: usize,
}

pub fn short(n: usize) -> Result<u32, NoMemory>
    ensures { IfOk result (λ short. short ≡ n) }
{
    if n > u32::MAX as usize {
        return Err(NoMemory);
    }
    Ok(n as u32)
}

/// The local that stands so many slots behind.
pub fn later_local(local: Local, by: usize) -> Result<Local, NoMemory>
    ensures { IfOk result (λ later. later ≡ spec.later_local local by) }
{
    let Some(slot) = (local.slot as usize).checked_add(by) else {
        return Err(NoMemory);
    };
    Ok(Local {
        scope: local.scope,
        slot: short(slot)?,
        up: local.up,
    })
}

impl Naming {
    /// The number of a name, which is new where the name is.
    pub fn name(&mut self, text: &str) -> Result<NameId, NoMemory>
        ensures { IfOk result (λ id. spec.Gives (spec.named text.now) self.old id self.new) }
    {
        self.names.intern(text)
    }

    /// The number of a text, which is new where the text is.
    pub fn literal(&mut self, text: &str) -> Result<TextId, NoMemory>
        ensures { IfOk result (λ id. spec.Gives (spec.literal text.now) self.old id self.new) }
    {
        Ok(TextId(self.texts.intern(text)?.0))
    }

    /// A new local of the innermost scope.
    pub fn declare(&mut self, name: Option<NameId>) -> Result<Local, NoMemory>
        ensures { IfOk result (λ local. spec.Gives (spec.declared name) self.old local self.new) }
    {
        let slot = short(self.inner.slots.len())?;
        self.inner.slots.push(name)?;
        Ok(Local {
            scope: self.inner.number,
            slot,
            up: 0,
        })
    }

    /// So many new locals of the innermost scope, without names.
    fn declare_times(&mut self, count: usize) -> Result<(), NoMemory>
        ensures { OnOk result (spec.state_of self.new ≡ spec.declared_times count (spec.state_of self.old)) }
    {
        for i in 0..count {
            self.declare(None)?;
        }
        Ok(())
    }

    /// A new local without a name, and so many more behind it.
    pub fn fresh(&mut self, more: usize) -> Result<Local, NoMemory>
        ensures { IfOk result (λ local. spec.Gives (spec.fresh more) self.old local self.new) }
    {
        let first = self.declare(None)?;
        self.declare_times(more)?;
        Ok(first)
    }

    /// The locals of the innermost scope so far are its parameters. Gives how many they are.
    pub fn with_parameters(&mut self) -> usize
        ensures { spec.Gives spec.with_parameters self.old result self.new }
    {
        let count = self.inner.slots.len();
        self.inner.parameters = count;
        count
    }

    /// The parameters of the running method.
    pub fn passed(&self) -> Result<Passed, NoMemory>
        ensures { IfOk result (λ passed. passed ≡ (spec.passed (spec.state_of self.now)).value) }
    {
        let up = short(self.around.len())?;
        let outermost = self.outermost();
        Ok(Passed {
            first: Local {
                scope: outermost.number,
                slot: 0,
                up,
            },
            count: outermost.parameters,
        })
    }

    /// The scope of the running method.
    fn outermost(&self) -> &Opened
        ensures { result.now ≡ spec.outermost_of self.now.inner (reverse self.now.around.items) }
    {
        let Some(opened) = self.around.first() else {
            return &self.inner;
        };
        opened
    }

    /// The local that the name stands for, if it stands for one.
    pub fn resolve(&self, name: NameId) -> Result<Option<Local>, NoMemory>
        ensures { IfOk result (λ local. local ≡ spec.resolved name (spec.state_of self.now)) }
    {
        if let Some(slot) = self.inner.slots.find(name) {
            return Ok(Some(Local {
                scope: self.inner.number,
                slot,
                up: 0,
            }));
        }
        let count = self.around.len();
        for up in 0..count {
            let Some(open) = self.around.get(count - 1 - up) else {
                return Ok(None);
            };
            if let Some(slot) = open.slots.find(name) {
                return Ok(Some(Local {
                    scope: open.number,
                    slot,
                    up: short(up + 1)?,
                }));
            }
        }
        Ok(None)
    }

    /// The local that an assignment to the name means.
    pub fn target(&mut self, name: NameId) -> Result<Local, NoMemory>
        ensures { IfOk result (λ local. spec.Gives (spec.target name) self.old local self.new) }
    {
        match self.resolve(name)? {
            Some(local) => Ok(local),
            None => self.declare(Some(name)),
        }
    }

    /// A scope that is new.
    fn begin(&mut self) -> Result<Opened, NoMemory>
        ensures ok { IfOk result (λ opened. opened ≡ spec.fresh_scope (spec.state_of self.old)) }
        ensures state { OnOk result (spec.state_of self.new ≡ record (spec.state_of self.old) { scopes = self.old.scopes.items ++ [] ∷ [] }) }
        ensures rest { OnOk result (self.new.inner ≡ self.old.inner) }
        ensures around { OnOk result (self.new.around.items ≡ self.old.around.items) }
    {
        let number = ScopeId(short(self.scopes.len())?);
        self.scopes.push(Slots::new(self.alloc))?;
        Ok(Opened {
            number,
            slots: Slots::new(self.alloc),
            parameters: 0,
        })
    }

    /// Begins a scope that sees those around it.
    pub fn enter(&mut self) -> Result<ScopeId, NoMemory>
        ensures { IfOk result (λ number. spec.Gives spec.entered self.old number self.new) }
    {
        let opened = self.begin()?;
        let number = opened.number;
        let before = std::mem::replace(&mut self.inner, opened);
        self.around.push(before)?;
        Ok(number)
    }

    /// Begins a scope that sees none around it.
    pub fn enter_apart(&mut self) -> Result<Apart, NoMemory>
        ensures { IfOk result (λ apart. SetsApart self.old apart self.new) }
    {
        let opened = self.begin()?;
        let number = opened.number;
        let inner = std::mem::replace(&mut self.inner, opened);
        let around = std::mem::replace(&mut self.around, Vec::new(self.alloc));
        Ok(Apart {
            number,
            inner,
            around,
        })
    }

    /// Ends the innermost scope, and goes back to what was open outside it.
    pub fn rejoin(&mut self, apart: Apart)
        ensures { spec.state_of self.new ≡ rejoined_to apart (spec.state_of self.old) }
    {
        let Apart {
            number: _,
            inner,
            around,
        } = apart;
        let ended = std::mem::replace(&mut self.inner, inner);
        settle(&mut self.scopes, ended);
        self.around = around;
    }

    /// Ends the innermost scope.
    pub fn leave(&mut self)
        ensures { spec.state_of self.new ≡ spec.left (spec.state_of self.old) }
    {
        let Some(before) = self.around.pop() else {
            return;
        };
        let ended = std::mem::replace(&mut self.inner, before);
        settle(&mut self.scopes, ended);
    }
}

/// Notes the locals of a scope that ends.
pub fn settle(scopes: &mut Vec<Slots>, ended: Opened)
    ensures { scopes.new.items ≡ spec.settled ended scopes.old.items }
{
    if let Some(slots) = scopes.get_mut(ended.number.0 as usize) {
        *slots = ended.slots;
    }
}
