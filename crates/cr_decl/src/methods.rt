//! Methods: their parameters, their result types and their bodies.

ghost use Rattle.cr_bodies.specs.Nests.{Nests};
ghost use Rattle.cr_readers.specs.Cursor.{state_of};
ghost use Rattle.cr_readers.specs.Declarations as declarations;
ghost use Rattle.cr_readers.specs.Descent.{read};
ghost use Rattle.cr_readers.specs.Reads.{Reads};
ghost use Rattle.std.specs.Prelude.{◌≡◌};
ghost use Rattle.std.specs.Str.{bytes_eq};
ghost use Rattle.cr_decl.specs.Methods as methods;
ghost use Rattle.cr_grammar.specs.Operators as o;
ghost use Rattle.cr_grammar.specs.Wanted as wanted;
ghost use Rattle.cr_readers.specs.Lists as lists;
ghost use Rattle.cr_readers.specs.Reader as reader;
ghost use Rattle.cr_syntax.specs.declared.look.TokenLook.TheVariants as l;

use crate::declarations::Declarations;
use crate::lists::Declared;
use crate::names::method_name;
use cr_grammar::{Tree, Wanted, Within, Word};
use cr_readers::{Cursor, ParseFault};
use cr_syntax::{TokenLook, TokenText};
use cr_words::{ident, instance_variable, separators};
use sqlite_items::{Boxed, Items};
use std::alloc::Global;

/// Whether a method has the name of what sets up an object.
fn is_initialize(name: &TokenText) -> bool
    ensures { result ≡ bytes_eq name.now o.initialize_name }
{
    name.as_str() == "initialize"
}

/// What surrounds the body of a method of this name; the flag tells whether it stands in a class or module.
fn in_method(class: bool, name: &TokenText) -> Within
    ensures { result ≡ wanted.in_method class name.now }
{
    Within {
        class,
        method: true,
        initialize: class && is_initialize(name),
        block: false,
        in_loop: false,
    }
}

impl<
    F: Fn(Global, usize, usize, Wanted, &mut Cursor<'_>) -> Result<Boxed<Tree>, ParseFault>,
> Declarations<F> {
    /// `: T`
    pub(crate) fn restriction(&self, cursor: &mut Cursor<'_>) -> Result<Boxed<Tree>, ParseFault>
        requires { Nests self.now.parser.turns self.now.parser.deep (F.pre self.now.parser.inside) (F.post self.now.parser.inside) }
        ensures { Reads (declarations.restriction self.now.parser.turns (read self.now.parser.turns self.now.parser.deep) (state_of cursor.old)) result (state_of cursor.new) }
    {
        cursor.expect(TokenLook::Colon)?;
        self.parser.part(cursor, Wanted::Written(true))
    }

    /// `: T`, if it comes.
    pub(crate) fn maybe_restriction(
        &self,
        cursor: &mut Cursor<'_>,
    ) -> Result<Option<Boxed<Tree>>, ParseFault>
        requires { Nests self.now.parser.turns self.now.parser.deep (F.pre self.now.parser.inside) (F.post self.now.parser.inside) }
        ensures { Reads (declarations.maybe_restriction self.now.parser.turns (read self.now.parser.turns self.now.parser.deep) (state_of cursor.old)) result (state_of cursor.new) }
    {
        if !cursor.sees(TokenLook::Colon) {
            return Ok(None);
        }
        Ok(Some(self.restriction(cursor)?))
    }

    /// A parameter behind its name; the flag tells whether that is an instance variable's.
    fn parameter_of(
        &self,
        cursor: &mut Cursor<'_>,
        name: Word,
        instance: bool,
    ) -> Result<Boxed<Tree>, ParseFault>
        requires { Nests self.now.parser.turns self.now.parser.deep (F.pre self.now.parser.inside) (F.post self.now.parser.inside) }
        ensures { Reads (methods.parameter_of self.now.parser.turns (read self.now.parser.turns self.now.parser.deep) name instance (state_of cursor.old)) result (state_of cursor.new) }
    {
        cursor.grow(name.at)?;
        let restriction = self.maybe_restriction(cursor)?;
        let tree = Tree::Parameter {
            at: name.at,
            instance,
            name: name.text,
            restriction,
        };
        Ok(Boxed::new(self.parser.alloc, tree)?)
    }

    /// A parameter; the flag tells whether it may be an instance variable.
    pub(crate) fn param(
        &self,
        cursor: &mut Cursor<'_>,
        instance: bool,
    ) -> Result<Boxed<Tree>, ParseFault>
        requires { Nests self.now.parser.turns self.now.parser.deep (F.pre self.now.parser.inside) (F.post self.now.parser.inside) }
        ensures { Reads (declarations.param self.now.parser.turns (read self.now.parser.turns self.now.parser.deep) instance (state_of cursor.old)) result (state_of cursor.new) }
    {
        if instance && cursor.sees(TokenLook::InstanceVariable) {
            let name = instance_variable(self.parser.alloc, cursor)?;
            return self.parameter_of(cursor, name, true);
        }
        let name = ident(self.parser.alloc, cursor)?;
        self.parameter_of(cursor, name, false)
    }

    /// The type behind the parameters, which `initialize` has not.
    fn result_type(
        &self,
        cursor: &mut Cursor<'_>,
        initialize: bool,
    ) -> Result<Option<Boxed<Tree>>, ParseFault>
        requires { Nests self.now.parser.turns self.now.parser.deep (F.pre self.now.parser.inside) (F.post self.now.parser.inside) }
        ensures { Reads (declarations.result_type self.now.parser.turns (read self.now.parser.turns self.now.parser.deep) initialize (state_of cursor.old)) result (state_of cursor.new) }
    {
        if initialize {
            return Ok(None);
        }
        self.maybe_restriction(cursor)
    }

    /// The parameters inside the parentheses, unless these close at once.
    fn parameters_inside(
        &self,
        cursor: &mut Cursor<'_>,
        instance: bool,
    ) -> Result<Items<Tree>, ParseFault>
        requires { Nests self.now.parser.turns self.now.parser.deep (F.pre self.now.parser.inside) (F.post self.now.parser.inside) }
        ensures { Reads (lists.unless_closed l.CloseParenthesis (lists.listed self.now.parser.turns (reader.part (declarations.param self.now.parser.turns (read self.now.parser.turns self.now.parser.deep) instance))) (state_of cursor.old)) result (state_of cursor.new) }
    {
        if cursor.sees(TokenLook::CloseParenthesis) {
            return Ok(Items::new(self.parser.alloc));
        }
        self.declared_list(cursor, Declared::Parameter(instance))
    }

    /// The parameters in tight parentheses, or none.
    fn parameters(&self, cursor: &mut Cursor<'_>, within: Within) -> Result<Items<Tree>, ParseFault>
        requires { Nests self.now.parser.turns self.now.parser.deep (F.pre self.now.parser.inside) (F.post self.now.parser.inside) }
        ensures { Reads (declarations.parameters self.now.parser.turns (read self.now.parser.turns self.now.parser.deep) within (state_of cursor.old)) result (state_of cursor.new) }
    {
        if !cursor.sees_tight(TokenLook::OpenParenthesis) {
            return Ok(Items::new(self.parser.alloc));
        }
        cursor.expect(TokenLook::OpenParenthesis)?;
        separators(cursor, self.parser.turns)?;
        let found = self.parameters_inside(cursor, within.initialize)?;
        separators(cursor, self.parser.turns)?;
        cursor.expect(TokenLook::CloseParenthesis)?;
        Ok(found)
    }

    /// A method behind its name, by what surrounds its body and whether it is `initialize`.
    fn def_inside(
        &self,
        cursor: &mut Cursor<'_>,
        within: Within,
        initialize: bool,
        at: u32,
        name: TokenText,
    ) -> Result<Boxed<Tree>, ParseFault>
        requires { Nests self.now.parser.turns self.now.parser.deep (F.pre self.now.parser.inside) (F.post self.now.parser.inside) }
        ensures { Reads (methods.def_inside self.now.parser.turns (read self.now.parser.turns self.now.parser.deep) within initialize at name (state_of cursor.old)) result (state_of cursor.new) }
    {
        let parameters = self.parameters(cursor, within)?;
        let result = self.result_type(cursor, initialize)?;
        cursor.expect(TokenLook::Newline)?;
        let body = self.parser.body(cursor, within)?;
        cursor.expect(TokenLook::KeywordEnd)?;
        let tree = Tree::Def {
            at,
            name,
            parameters,
            result,
            body,
        };
        Ok(Boxed::new(self.parser.alloc, tree)?)
    }

    /// A method behind its name; the flag tells whether it stands in a class or module.
    fn def_behind(
        &self,
        cursor: &mut Cursor<'_>,
        class: bool,
        at: u32,
        name: TokenText,
    ) -> Result<Boxed<Tree>, ParseFault>
        requires { Nests self.now.parser.turns self.now.parser.deep (F.pre self.now.parser.inside) (F.post self.now.parser.inside) }
        ensures { Reads (methods.def_behind self.now.parser.turns (read self.now.parser.turns self.now.parser.deep) class at name (state_of cursor.old)) result (state_of cursor.new) }
    {
        let within = in_method(class, &name);
        let initialize = is_initialize(&name);
        self.def_inside(cursor, within, initialize, at, name)
    }

    /// `def`; the flag tells whether it stands in a class or module.
    pub(crate) fn def(
        &self,
        cursor: &mut Cursor<'_>,
        class: bool,
    ) -> Result<Boxed<Tree>, ParseFault>
        requires { Nests self.now.parser.turns self.now.parser.deep (F.pre self.now.parser.inside) (F.post self.now.parser.inside) }
        ensures { Reads (declarations.def self.now.parser.turns (read self.now.parser.turns self.now.parser.deep) class (state_of cursor.old)) result (state_of cursor.new) }
    {
        let at = cursor.expect(TokenLook::Def)?;
        cursor.grow(at)?;
        let name = method_name(self.parser.alloc, cursor)?;
        self.def_behind(cursor, class, at, name)
    }
}
