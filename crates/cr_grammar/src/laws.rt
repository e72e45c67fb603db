ghost use Rattle.cr_grammar.specs.Laws.{DoIsNotTheirs, NoCommandInside, StatementsBegin, TypesBegin, UnlessHasNoElsif, ValuesBegin};

/// What spells a value, a statement or a type has a first token, and it is one of those that begin such a construct.
pub fn first_token_is_known()
    ensures values { ValuesBegin }
    ensures statements { StatementsBegin }
    ensures types { TypesBegin }
{}

/// Where neither a brace nor a parenthesis opens in the arguments of a command, none of them is itself a call with arguments
/// or a block. It says nothing of what stands deeper in them.
pub fn do_is_not_the_arguments()
    ensures { DoIsNotTheirs }
{}

/// An `unless` has no branches of `elsif`.
pub fn unless_has_no_elsif()
    ensures { UnlessHasNoElsif }
{}

/// Where no brace, parenthesis or `do` opens inside parentheses or brackets, nothing there is itself a call with arguments or
/// a block. It says nothing of what stands deeper.
pub fn no_command_stands_inside()
    ensures { NoCommandInside }
{}
