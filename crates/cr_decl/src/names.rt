//! The names of methods and of classes, and `include`.

ghost use Rattle.std.specs.Prelude.{◌≡◌, ◌++◌, ◌∷◌, [], ◌==◌, ◌||◌, option_map};
ghost use Rattle.cr_grammar.specs.Operators as o;
ghost use Rattle.cr_decl.specs.Names as names;
ghost use Rattle.cr_readers.specs.Cursor.{state_of};
ghost use Rattle.cr_readers.specs.Declarations as declarations;
ghost use Rattle.cr_readers.specs.Reads.{Reads};
ghost use Rattle.cr_words.specs.Gives.{Gives};

use cr_grammar::Tree;
use cr_readers::{Cursor, ParseFault};
use cr_syntax::{TokenLook, TokenText};
use cr_words::{constant, ident};
use sqlite_items::Boxed;
use std::alloc::Global;

/// A text of its own.
fn text_of(alloc: Global, text: &str) -> Result<TokenText, ParseFault>
    ensures { Gives text.now result }
{
    match TokenText::of(alloc, text) {
        Ok(text) => Ok(text),
        Err(_) => Err(ParseFault::NoMemory),
    }
}

/// The name of what sets the field of this name: `x=`.
fn setter_name(alloc: Global, field: &TokenText) -> Result<TokenText, ParseFault>
    ensures { Gives (field.now ++ 61 ∷ []) result }
{
    let mut name = String::from_str(alloc, field.as_str())?;
    name.push_str("=")?;
    text_of(alloc, name.as_str())
}

/// Whether a byte is `?` or `!`.
fn is_mark(byte: u8) -> bool
    ensures { result ≡ byte == 63 || byte == 33 }
{
    byte == b'?' || byte == b'!'
}

/// Whether a name ends with `?` or `!`.
#[tactic(auto, using(crate::proofs::Marks::marked_by, crate::proofs::Marks::unmarked))]
fn is_marked(name: &TokenText) -> bool
    ensures { result ≡ o.is_marked name.now }
{
    match name.as_str().as_bytes().last() {
        Some(last) => is_mark(*last),
        None => false,
    }
}

/// What a method is named that begins with this name; the flag tells whether that is marked.
fn name_from(
    alloc: Global,
    cursor: &mut Cursor<'_>,
    name: TokenText,
    marked: bool,
) -> Result<TokenText, ParseFault>
    ensures { Reads (declarations.name_from (record { at = 0; text = name }) marked (state_of cursor.old)) result (state_of cursor.new) }
{
    if marked || !cursor.sees_tight(TokenLook::Equal) {
        return Ok(name);
    }
    cursor.expect(TokenLook::Equal)?;
    setter_name(alloc, &name)
}

/// A name, with a tight `=` behind it or none.
fn plain_name(alloc: Global, cursor: &mut Cursor<'_>) -> Result<TokenText, ParseFault>
    ensures { Reads (declarations.plain_name (state_of cursor.old)) result (state_of cursor.new) }
{
    let name = ident(alloc, cursor)?;
    let marked = is_marked(&name.text);
    name_from(alloc, cursor, name.text, marked)
}

/// What stands behind `[]`: a tight `=` or `?`, or nothing.
fn index_ending(alloc: Global, cursor: &mut Cursor<'_>) -> Result<TokenText, ParseFault>
    ensures { Reads (names.index_ending (state_of cursor.old)) result (state_of cursor.new) }
{
    if cursor.sees_tight(TokenLook::Equal) {
        cursor.expect(TokenLook::Equal)?;
        return text_of(alloc, "[]=");
    }
    if cursor.sees_tight(TokenLook::Question) {
        cursor.expect(TokenLook::Question)?;
        return text_of(alloc, "[]?");
    }
    text_of(alloc, "[]")
}

/// `[]`, `[]=` or `[]?`, each token after the first tight.
fn index_names(alloc: Global, cursor: &mut Cursor<'_>) -> Result<TokenText, ParseFault>
    ensures { Reads (declarations.index_names (state_of cursor.old)) result (state_of cursor.new) }
{
    cursor.expect(TokenLook::OpenBracket)?;
    if !cursor.sees_tight(TokenLook::CloseBracket) {
        return Err(cursor.refuse());
    }
    cursor.expect(TokenLook::CloseBracket)?;
    let name = index_ending(alloc, cursor)?;
    Ok(name)
}

/// The text of an operator that a method may be named after.
fn operator_name(look: TokenLook) -> Option<&'static str>
    ensures { option_map (λ text. text.now) result ≡ o.operator_name look }
{
    match look {
        TokenLook::Plus => Some("+"),
        TokenLook::Minus => Some("-"),
        TokenLook::Star => Some("*"),
        TokenLook::SlashSlash => Some("//"),
        TokenLook::Percent => Some("%"),
        TokenLook::EqualEqual => Some("=="),
        TokenLook::Less => Some("<"),
        TokenLook::LessEqual => Some("<="),
        TokenLook::Greater => Some(">"),
        TokenLook::GreaterEqual => Some(">="),
        TokenLook::ShiftLeft => Some("<<"),
        _ => None,
    }
}

/// An operator that a method may be named after.
fn operator(alloc: Global, cursor: &mut Cursor<'_>) -> Result<TokenText, ParseFault>
    ensures { Reads (declarations.operator (state_of cursor.old)) result (state_of cursor.new) }
{
    let Some(token) = cursor.token() else {
        return Err(cursor.refuse());
    };
    let Some(text) = operator_name(token.kind.look()) else {
        return Err(cursor.refuse());
    };
    let name = text_of(alloc, text)?;
    cursor.take();
    Ok(name)
}

/// The name of a method.
pub fn method_name(alloc: Global, cursor: &mut Cursor<'_>) -> Result<TokenText, ParseFault>
    ensures { Reads (declarations.method_name (state_of cursor.old)) result (state_of cursor.new) }
{
    if cursor.sees(TokenLook::Ident) {
        return plain_name(alloc, cursor);
    }
    if cursor.sees(TokenLook::OpenBracket) {
        return index_names(alloc, cursor);
    }
    operator(alloc, cursor)
}

/// The name of a class or module.
pub fn constant_name(alloc: Global, cursor: &mut Cursor<'_>) -> Result<TokenText, ParseFault>
    ensures { Reads (declarations.constant_name (state_of cursor.old)) result (state_of cursor.new) }
{
    let name = constant(alloc, cursor)?;
    Ok(name.text)
}

/// `include A`
pub fn include(alloc: Global, cursor: &mut Cursor<'_>) -> Result<Boxed<Tree>, ParseFault>
    ensures { Reads (declarations.include (state_of cursor.old)) result (state_of cursor.new) }
{
    let at = cursor.expect(TokenLook::Include)?;
    cursor.grow(at)?;
    let name = constant(alloc, cursor)?;
    let tree = Tree::Include {
        at,
        name: name.text,
    };
    Ok(Boxed::new(alloc, tree)?)
}
