//! A tree as one line, without places. What has no parts stands as it is, and `1_i64` is an Int64; statements are `{s t}`, a block `{|a| s}`,
//! a type `:A|B(:C)`, literals `[a b of :T]` and `%{k=>v of :K=>:V}`. Other forms begin with their word: `(+ a b)`, `(= x a)`, `(f a {s})`,
//! `(.f receiver a)`, `([] a 0)`, `(if c {s} (elsif d {t}) else {u})`, `(def f(x:T):R {s})`, `(class A(T) < B {s})`. What is absent is left out.

use cr_grammar::{Assignment, Binary, Tree, Unary};
use cr_syntax::TokenText;
use sqlite_items::{Boxed, Items};
use std::alloc::{AllocError, Global};
use std::fmt::Write;

/// Trees nest less deeply than this.
const MAX_LEVELS: usize = 500;

/// What a line is put together from.
#[derive(Drop)]
enum Part<'t> {
    Text(&'t str),
    Number(i64),
    Tree(&'t Tree),
}

/// The line of a tree, in which the trees below it are parts.
#[derive(Drop)]
struct Line<'t> {
    parts: Vec<Part<'t>>,
}

/// The tree as one line.
pub fn shape(alloc: Global, tree: &Tree) -> Result<String, AllocError> {
    let mut out = String::new(alloc);
    write_tree(alloc, &mut out, tree, MAX_LEVELS)?;
    Ok(out)
}

/// Writes a tree of at most so many levels.
fn write_tree(
    alloc: Global,
    out: &mut String,
    tree: &Tree,
    levels: usize,
) -> Result<(), AllocError> {
    if levels == 0 {
        return out.push_str("..");
    }
    let mut line = Line {
        parts: Vec::new(alloc),
    };
    line.literal(tree)?;
    for part in &line.parts {
        match part {
            Part::Text(text) => out.push_str(text)?,
            Part::Number(value) => write!(out, "{value}")?,
            Part::Tree(tree) => write_tree(alloc, out, tree, levels - 1)?,
        }
    }
    Ok(())
}

/// How an operator between operands is spelled.
fn binary(operator: Binary) -> &'static str {
    match operator {
        Binary::Or => "||",
        Binary::And => "&&",
        Binary::Equal => "==",
        Binary::NotEqual => "!=",
        Binary::Less => "<",
        Binary::LessEqual => "<=",
        Binary::Greater => ">",
        Binary::GreaterEqual => ">=",
        Binary::ShiftLeft => "<<",
        Binary::Plus => "+",
        Binary::Minus => "-",
        Binary::WrappingPlus => "&+",
        Binary::WrappingMinus => "&-",
        Binary::Star => "*",
        Binary::SlashSlash => "//",
        Binary::Percent => "%",
        Binary::WrappingStar => "&*",
    }
}

/// How an operator before its operand is spelled.
fn unary(operator: Unary) -> &'static str {
    match operator {
        Unary::Not => "!",
        Unary::Negate => "-",
    }
}

/// How what assigns is spelled.
fn assignment(operator: Assignment) -> &'static str {
    match operator {
        Assignment::Plain => "=",
        Assignment::Plus => "+=",
        Assignment::Minus => "-=",
        Assignment::Star => "*=",
        Assignment::SlashSlash => "//=",
        Assignment::Percent => "%=",
        Assignment::Or => "||=",
    }
}

// Parts one by one, and lists of them.
impl<'t> Line<'t> {
    fn text(&mut self, text: &'t str) -> Result<(), AllocError> {
        self.parts.push(Part::Text(text))?;
        Ok(())
    }

    fn number(&mut self, value: i64) -> Result<(), AllocError> {
        self.parts.push(Part::Number(value))?;
        Ok(())
    }

    fn tree(&mut self, tree: &'t Tree) -> Result<(), AllocError> {
        self.parts.push(Part::Tree(tree))?;
        Ok(())
    }

    /// A text, a tree behind it, and a text.
    fn tree_within(
        &mut self,
        before: &'t str,
        tree: &'t Tree,
        behind: &'t str,
    ) -> Result<(), AllocError> {
        self.text(before)?;
        self.tree(tree)?;
        self.text(behind)
    }

    /// A text and a name behind it.
    fn name(&mut self, before: &'t str, name: &'t TokenText) -> Result<(), AllocError> {
        self.text(before)?;
        self.text(name.as_str())
    }

    /// A tree behind a text, if there is one.
    fn optional(
        &mut self,
        before: &'t str,
        tree: &'t Option<Boxed<Tree>>,
    ) -> Result<(), AllocError> {
        match tree {
            Some(tree) => self.tree_within(before, tree.get(), ""),
            None => Ok(()),
        }
    }

    /// Each tree behind a space.
    fn spaced(&mut self, trees: &'t Items<Tree>) -> Result<(), AllocError> {
        for tree in trees.as_slice() {
            self.tree_within(" ", tree, "")?;
        }
        Ok(())
    }

    fn joined(&mut self, trees: &'t Items<Tree>, between: &'t str) -> Result<(), AllocError> {
        for (at, tree) in trees.as_slice().iter().enumerate() {
            self.text(if at == 0 { "" } else { between })?;
            self.tree(tree)?;
        }
        Ok(())
    }

    fn names(&mut self, names: &'t Items<TokenText>, between: &'t str) -> Result<(), AllocError> {
        for (at, name) in names.as_slice().iter().enumerate() {
            self.name(if at == 0 { "" } else { between }, name)?;
        }
        Ok(())
    }

    /// ` {s t}`
    fn body(&mut self, trees: &'t Items<Tree>) -> Result<(), AllocError> {
        self.text(" {")?;
        self.joined(trees, " ")?;
        self.text("}")
    }

    /// `(a b)` behind a name, if there are any.
    fn parenthesized(&mut self, trees: &'t Items<Tree>) -> Result<(), AllocError> {
        if trees.is_empty() {
            return Ok(());
        }
        self.text("(")?;
        self.joined(trees, " ")?;
        self.text(")")
    }

    /// ` else {s t}`, if there is one, and the end of the form.
    fn otherwise(&mut self, trees: &'t Option<Items<Tree>>) -> Result<(), AllocError> {
        if let Some(trees) = trees {
            self.text(" else")?;
            self.body(trees)?;
        }
        self.text(")")
    }
}

// Trees, class by class: what is of another class goes on to the next.
impl<'t> Line<'t> {
    fn literal(&mut self, tree: &'t Tree) -> Result<(), AllocError> {
        match tree {
            Tree::Int32 { value, .. } => self.number(*value as i64),
            Tree::Int64 { value, .. } => {
                self.number(*value)?;
                self.text("_i64")
            }
            Tree::Text { text, .. } => {
                self.name("\"", text)?;
                self.text("\"")
            }
            Tree::Insertions {
                parts,
                inserted,
                ..
            } => self.insertions(parts, inserted),
            Tree::Nil { .. } => self.text("nil"),
            Tree::True { .. } => self.text("true"),
            Tree::False { .. } => self.text("false"),
            Tree::KeywordSelf { .. } => self.text("self"),
            Tree::InstanceVariable { name, .. } => self.name("@", name),
            Tree::Array {
                elements,
                element,
                ..
            } => self.collection("[", elements, element, "]"),
            Tree::Hash { entries, entry, .. } => self.collection("%{", entries, entry, "}"),
            Tree::Pair { key, value } => {
                self.tree(key.get())?;
                self.tree_within("=>", value.get(), "")
            }
            _ => self.operation(tree),
        }
    }

    fn insertions(
        &mut self,
        parts: &'t Items<TokenText>,
        inserted: &'t Items<Tree>,
    ) -> Result<(), AllocError> {
        self.text("\"")?;
        for (at, part) in parts.as_slice().iter().enumerate() {
            self.name("", part)?;
            if let Some(tree) = inserted.get(at) {
                self.tree_within("#{", tree, "}")?;
            }
        }
        self.text("\"")
    }

    fn collection(
        &mut self,
        open: &'t str,
        elements: &'t Items<Tree>,
        of: &'t Option<Boxed<Tree>>,
        close: &'t str,
    ) -> Result<(), AllocError> {
        self.text(open)?;
        self.joined(elements, " ")?;
        self.optional(if elements.is_empty() { "of " } else { " of " }, of)?;
        self.text(close)
    }

    fn operation(&mut self, tree: &'t Tree) -> Result<(), AllocError> {
        match tree {
            Tree::Index {
                receiver,
                arguments,
                question,
                ..
            } => {
                let word = if *question { "([]? " } else { "([] " };
                self.tree_within(word, receiver.get(), "")?;
                self.spaced(arguments)?;
                self.text(")")
            }
            Tree::Binary {
                operator,
                left,
                right,
                ..
            } => self.operands(binary(*operator), left.get(), right.get()),
            Tree::Unary {
                operator,
                operand,
                ..
            } => {
                self.text("(")?;
                self.text(unary(*operator))?;
                self.tree_within(" ", operand.get(), ")")
            }
            Tree::IsNil { value, .. } => self.tree_within("(nil? ", value.get(), ")"),
            Tree::IsA { value, of, .. } => self.operands("is_a?", value.get(), of.get()),
            Tree::Assign {
                target,
                operator,
                value,
                ..
            } => self.operands(assignment(*operator), target.get(), value.get()),
            _ => self.call(tree),
        }
    }

    fn operands(
        &mut self,
        word: &'t str,
        left: &'t Tree,
        right: &'t Tree,
    ) -> Result<(), AllocError> {
        self.text("(")?;
        self.text(word)?;
        self.tree_within(" ", left, " ")?;
        self.tree_within("", right, ")")
    }

    fn call(&mut self, tree: &'t Tree) -> Result<(), AllocError> {
        match tree {
            Tree::Call {
                receiver,
                name,
                arguments,
                block,
                ..
            } => self.named(receiver, name, arguments, block),
            Tree::New {
                class,
                question,
                arguments,
                block,
                ..
            } => {
                self.tree_within("(new ", class.get(), if *question { "?" } else { "" })?;
                self.passed(arguments, block)
            }
            Tree::Block { parameters, body } => self.block(parameters, body),
            Tree::Pause { .. } => self.text("Fiber.yield"),
            Tree::Yield { arguments, .. } => {
                self.text("(yield")?;
                self.spaced(arguments)?;
                self.text(")")
            }
            Tree::Super { arguments, .. } => {
                self.text("(super")?;
                self.spaced(arguments)?;
                self.text(")")
            }
            Tree::BareSuper { .. } => self.text("super"),
            Tree::Spawn { context, body, .. } => {
                self.text("(spawn")?;
                self.optional(" ", context)?;
                self.body(body)?;
                self.text(")")
            }
            _ => self.compound(tree),
        }
    }

    /// Arguments and a block, and the end of the form.
    fn passed(
        &mut self,
        arguments: &'t Items<Tree>,
        block: &'t Option<Boxed<Tree>>,
    ) -> Result<(), AllocError> {
        self.spaced(arguments)?;
        self.optional(" ", block)?;
        self.text(")")
    }

    fn named(
        &mut self,
        receiver: &'t Option<Boxed<Tree>>,
        name: &'t TokenText,
        arguments: &'t Items<Tree>,
        block: &'t Option<Boxed<Tree>>,
    ) -> Result<(), AllocError> {
        if let Some(receiver) = receiver {
            self.name("(.", name)?;
            self.tree_within(" ", receiver.get(), "")?;
            return self.passed(arguments, block);
        }
        if arguments.is_empty() && block.is_none() {
            return self.name("", name);
        }
        self.name("(", name)?;
        self.passed(arguments, block)
    }

    fn block(
        &mut self,
        parameters: &'t Items<Tree>,
        body: &'t Items<Tree>,
    ) -> Result<(), AllocError> {
        self.text("{")?;
        if !parameters.is_empty() {
            self.text("|")?;
            self.joined(parameters, " ")?;
            self.text(if body.is_empty() { "|" } else { "| " })?;
        }
        self.joined(body, " ")?;
        self.text("}")
    }

    fn compound(&mut self, tree: &'t Tree) -> Result<(), AllocError> {
        match tree {
            Tree::If {
                unless,
                condition,
                body,
                others,
                otherwise,
                ..
            } => {
                let word = if *unless { "(unless " } else { "(if " };
                self.tree_within(word, condition.get(), "")?;
                self.body(body)?;
                self.spaced(others)?;
                self.otherwise(otherwise)
            }
            Tree::While {
                until,
                condition,
                body,
                ..
            } => {
                let word = if *until { "(until " } else { "(while " };
                self.tree_within(word, condition.get(), "")?;
                self.body(body)?;
                self.text(")")
            }
            Tree::Case { value, clauses, .. } => {
                self.tree_within("(case ", value.get(), "")?;
                self.spaced(clauses)?;
                self.text(")")
            }
            Tree::Select {
                clauses,
                otherwise,
                ..
            } => {
                self.text("(select")?;
                self.spaced(clauses)?;
                self.otherwise(otherwise)
            }
            _ => self.clause(tree),
        }
    }

    fn clause(&mut self, tree: &'t Tree) -> Result<(), AllocError> {
        match tree {
            Tree::Branch {
                condition,
                body,
                ..
            } => {
                self.tree_within("(elsif ", condition.get(), "")?;
                self.body(body)?;
                self.text(")")
            }
            Tree::In { types, body, .. } => {
                self.text("(in")?;
                self.spaced(types)?;
                self.body(body)?;
                self.text(")")
            }
            Tree::When {
                target,
                operation,
                body,
                ..
            } => {
                self.text("(when")?;
                self.optional(" ", target)?;
                self.tree_within(" ", operation.get(), "")?;
                self.body(body)?;
                self.text(")")
            }
            _ => self.statement(tree),
        }
    }

    fn statement(&mut self, tree: &'t Tree) -> Result<(), AllocError> {
        match tree {
            Tree::Return { value, .. } => {
                self.text("(return")?;
                self.optional(" ", value)?;
                self.text(")")
            }
            Tree::Next { value, .. } => {
                self.text("(next")?;
                self.optional(" ", value)?;
                self.text(")")
            }
            Tree::Break { .. } => self.text("(break)"),
            Tree::Statements { list } => {
                self.text("{")?;
                self.joined(list, " ")?;
                self.text("}")
            }
            _ => self.declaration(tree),
        }
    }

    fn declaration(&mut self, tree: &'t Tree) -> Result<(), AllocError> {
        match tree {
            Tree::Class {
                name,
                parameters,
                superclass,
                members,
                ..
            } => self.class(name, parameters, superclass, members),
            Tree::Module { name, members, .. } => {
                self.name("(module ", name)?;
                self.body(members)?;
                self.text(")")
            }
            Tree::Def {
                name,
                parameters,
                result,
                body,
                ..
            } => {
                self.name("(def ", name)?;
                self.parenthesized(parameters)?;
                self.optional("", result)?;
                self.body(body)?;
                self.text(")")
            }
            _ => self.member(tree),
        }
    }

    fn class(
        &mut self,
        name: &'t TokenText,
        parameters: &'t Items<TokenText>,
        superclass: &'t Option<TokenText>,
        members: &'t Items<Tree>,
    ) -> Result<(), AllocError> {
        self.name("(class ", name)?;
        if !parameters.is_empty() {
            self.text("(")?;
            self.names(parameters, " ")?;
            self.text(")")?;
        }
        if let Some(superclass) = superclass {
            self.name(" < ", superclass)?;
        }
        self.body(members)?;
        self.text(")")
    }

    fn member(&mut self, tree: &'t Tree) -> Result<(), AllocError> {
        match tree {
            Tree::Include { name, .. } => {
                self.name("(include ", name)?;
                self.text(")")
            }
            Tree::Declaration { name, of, .. } => {
                self.name("(@", name)?;
                self.tree_within(" ", of.get(), ")")
            }
            Tree::Accessors {
                property,
                accessors,
                ..
            } => {
                self.text(if *property { "(property" } else { "(getter" })?;
                self.spaced(accessors)?;
                self.text(")")
            }
            Tree::Accessor { name, of, .. } => {
                self.name("", name)?;
                self.optional("", of)
            }
            Tree::Parameter {
                instance,
                name,
                restriction,
                ..
            } => {
                self.name(if *instance { "@" } else { "" }, name)?;
                self.optional("", restriction)
            }
            _ => self.written_type(tree),
        }
    }

    fn written_type(&mut self, tree: &'t Tree) -> Result<(), AllocError> {
        match tree {
            Tree::Union { atoms } => {
                self.text(":")?;
                self.joined(atoms, "|")
            }
            Tree::Atom {
                path,
                arguments,
                ..
            } => {
                self.names(path, "::")?;
                self.parenthesized(arguments)
            }
            _ => Ok(()),
        }
    }
}
