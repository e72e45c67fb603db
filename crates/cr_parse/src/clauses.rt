//! The clauses of `select`.

ghost use Rattle.std.specs.Prelude.{◌≡◌, ◌||◌};
ghost use Rattle.std.specs.Str.{bytes_eq};
ghost use Rattle.cr_grammar.specs.Operators as o;
ghost use Rattle.cr_readers.specs.Cursor.{state_of};
ghost use Rattle.cr_readers.specs.Descent.{read};
ghost use Rattle.cr_readers.specs.Links as links;
ghost use Rattle.cr_readers.specs.Operand as operands;
ghost use Rattle.cr_readers.specs.Reader as reader;
ghost use Rattle.cr_readers.specs.Reads.{Reads};
ghost use Rattle.cr_bodies.specs.Nests.{Nests};

use crate::expressions::Expressions;
use cr_grammar::{Tree, Wanted, Word};
use cr_readers::{Cursor, Operand, ParseFault};
use cr_syntax::TokenLook;
use cr_words::whole;
use sqlite_items::Boxed;
use std::alloc::Global;

fn is_receive(name: &str) -> bool
    ensures { result ≡ bytes_eq name.now o.receive_name || bytes_eq name.now o.receive_question_name }
{
    name == "receive" || name == "receive?"
}

impl<
    F: Fn(Global, usize, usize, Wanted, &mut Cursor<'_>) -> Result<Boxed<Tree>, ParseFault>,
> Expressions<F> {
    /// A postfix, as a part.
    #[tactic(auto, unfolding(cr_readers::specs::Reader::part, cr_readers::specs::Cursor::entered, cr_readers::specs::Cursor::left_part))]
    fn postfix_part(&self, cursor: &mut Cursor<'_>, free: bool) -> Result<Operand, ParseFault>
        requires { Nests self.now.parser.turns self.now.parser.deep (F.pre self.now.parser.inside) (F.post self.now.parser.inside) }
        ensures { Reads (reader.part (links.postfix self.now.parser.turns (read self.now.parser.turns self.now.parser.deep) self.now.within free) (state_of cursor.old)) result (state_of cursor.new) }
    {
        let height = cursor.enter();
        let operand = self.postfix(cursor, free)?;
        cursor.leave(height);
        Ok(operand)
    }

    /// The statements behind the operation of a clause.
    #[tactic(auto, unfolding(cr_readers::specs::Links::when_body))]
    fn when_body(
        &self,
        cursor: &mut Cursor<'_>,
        free: bool,
        at: u32,
        target: Option<Boxed<Tree>>,
        operation: Operand,
    ) -> Result<Boxed<Tree>, ParseFault>
        requires { Nests self.now.parser.turns self.now.parser.deep (F.pre self.now.parser.inside) (F.post self.now.parser.inside) }
        ensures { Reads (links.when_body self.now.parser.turns (read self.now.parser.turns self.now.parser.deep) self.now.within free at target (operands.whole operation) (state_of cursor.old)) result (state_of cursor.new) }
    {
        let operation = whole(self.parser.alloc, operation)?;
        self.parser.then(cursor)?;
        let body = self.parser.body(cursor, self.within)?;
        let tree = Tree::When {
            at,
            target,
            operation,
            body,
        };
        Ok(Boxed::new(self.parser.alloc, tree)?)
    }

    /// A clause whose operation receives.
    fn when_received(
        &self,
        cursor: &mut Cursor<'_>,
        free: bool,
        at: u32,
        target: Option<Boxed<Tree>>,
        operation: Operand,
    ) -> Result<Boxed<Tree>, ParseFault>
        requires { Nests self.now.parser.turns self.now.parser.deep (F.pre self.now.parser.inside) (F.post self.now.parser.inside) }
        ensures { Reads (links.when_received self.now.parser.turns (read self.now.parser.turns self.now.parser.deep) self.now.within free at target operation (state_of cursor.old)) result (state_of cursor.new) }
    {
        match operation {
            Operand::Field(channel, name) => {
                if !is_receive(name.text.as_str()) {
                    return Err(cursor.refuse());
                }
                self.when_body(cursor, free, at, target, Operand::Field(channel, name))
            }
            _ => Err(cursor.refuse()),
        }
    }

    /// A clause whose operation receives into a local.
    fn when_named(
        &self,
        cursor: &mut Cursor<'_>,
        free: bool,
        at: u32,
        name: Word,
    ) -> Result<Boxed<Tree>, ParseFault>
        requires { Nests self.now.parser.turns self.now.parser.deep (F.pre self.now.parser.inside) (F.post self.now.parser.inside) }
        ensures { Reads (links.when_by self.now.parser.turns (read self.now.parser.turns self.now.parser.deep) self.now.within free at (Operand.Name name) (state_of cursor.old)) result (state_of cursor.new) }
    {
        let target = whole(self.parser.alloc, Operand::Name(name))?;
        cursor.expect(TokenLook::Equal)?;
        let operation = self.postfix_part(cursor, free)?;
        self.when_received(cursor, free, at, Some(target), operation)
    }

    /// A clause behind its first postfix.
    fn when_by(
        &self,
        cursor: &mut Cursor<'_>,
        free: bool,
        at: u32,
        operation: Operand,
    ) -> Result<Boxed<Tree>, ParseFault>
        requires { Nests self.now.parser.turns self.now.parser.deep (F.pre self.now.parser.inside) (F.post self.now.parser.inside) }
        ensures { Reads (links.when_by self.now.parser.turns (read self.now.parser.turns self.now.parser.deep) self.now.within free at operation (state_of cursor.old)) result (state_of cursor.new) }
    {
        match operation {
            Operand::Name(name) => self.when_named(cursor, free, at, name),
            Operand::Passing(name, channel, value) => {
                if name.text.as_str() != "send" {
                    return Err(cursor.refuse());
                }
                let operation = Operand::Passing(name, channel, value);
                self.when_body(cursor, free, at, None, operation)
            }
            operation => self.when_received(cursor, free, at, None, operation),
        }
    }

    /// A clause of `select`.
    #[tactic(auto, unfolding(cr_readers::specs::Links::when))]
    pub fn when(&self, cursor: &mut Cursor<'_>, free: bool) -> Result<Boxed<Tree>, ParseFault>
        requires { Nests self.now.parser.turns self.now.parser.deep (F.pre self.now.parser.inside) (F.post self.now.parser.inside) }
        ensures { Reads (links.when self.now.parser.turns (read self.now.parser.turns self.now.parser.deep) self.now.within free (state_of cursor.old)) result (state_of cursor.new) }
    {
        let at = cursor.expect(TokenLook::When)?;
        let operation = self.postfix_part(cursor, free)?;
        self.when_by(cursor, free, at, operation)
    }
}
