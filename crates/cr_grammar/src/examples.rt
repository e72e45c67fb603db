ghost use Rattle.cr_grammar.specs.Examples.{BlockBehindName, BothBranches, Difference, DoBelongsToCommand, EmptyArgumentsLeaveNoTrace, FieldIsAssigned, GroupsLeft, HashLiteral, ModifierTakesStatement, NumberBehindName, OneLine, ParenthesesLeaveNoTrace, PutsSum, PutsSumCounts, QuestionIsNil, ReturnBeforeModifier, SelectReceives, SetterInClass, SignBehindName, TextWithInsertion, WordsOutOfPlace};

/// `puts -1 + 2*3` passes the whole sum, has six nodes, and they nest four deep.
pub fn command_passes_a_sum()
    ensures tree { PutsSum }
    ensures counts { PutsSumCounts }
{}

/// `1 - 2 - 3` groups to the left.
pub fn operators_group_to_the_left()
    ensures { GroupsLeft }
{}

/// `x -y` and `x -1` are calls, and `x - 1` is a difference.
pub fn sign_behind_a_name_begins_an_argument()
    ensures sign { SignBehindName }
    ensures number { NumberBehindName }
    ensures difference { Difference }
{}

/// `a.b = 1` assigns a field.
pub fn field_is_assigned()
    ensures { FieldIsAssigned }
{}

/// In `foo x do end` the block is that of `foo`.
pub fn do_belongs_to_the_command()
    ensures { DoBelongsToCommand }
{}

/// In `x = 1 if c` the modifier takes the whole assignment.
pub fn modifier_takes_the_statement()
    ensures { ModifierTakesStatement }
{}

/// `(a)` is `a`, and `foo()` is `foo`.
pub fn parentheses_leave_no_trace()
    ensures value { ParenthesesLeaveNoTrace }
    ensures arguments { EmptyArgumentsLeaveNoTrace }
{}

/// `{ 1 => 2 }` is a hash literal, and in `foo { 1 }` the braces are a block.
pub fn braces_behind_a_name_are_a_block()
    ensures hash { HashLiteral }
    ensures block { BlockBehindName }
{}

/// The type `T?` is `T | Nil`.
pub fn question_in_a_type_is_nil()
    ensures { QuestionIsNil }
{}

/// A name and a line feed are a program of one statement.
pub fn line_is_a_program()
    ensures { OneLine }
{}

/// A class with `def x=(v)`, whose body is `@x = v`.
pub fn setter_stands_in_a_class()
    ensures { SetterInClass }
{}

/// `select` with the one clause `when x = c.receive`.
pub fn select_receives()
    ensures { SelectReceives }
{}

/// `"a#{b}c"` has two parts and an insertion.
pub fn text_has_an_insertion()
    ensures { TextWithInsertion }
{}

/// In `return if x` the `if` is the modifier.
pub fn return_takes_no_modifier()
    ensures { ReturnBeforeModifier }
{}

/// `if c then 1 else 2 end` has both branches.
pub fn conditional_has_both_branches()
    ensures { BothBranches }
{}

/// Outside a loop `break` is no statement, outside a method `yield` and `return` are none, outside a class `self` is none,
/// and no tokens are none.
pub fn words_stand_in_their_place()
    ensures { WordsOutOfPlace }
{}
