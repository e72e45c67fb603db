// What holds of the table of built-in methods.
ghost use Rattle.std.specs.Prelude.{◌≡◌};
ghost use Rattle.cr_prelude.specs.Builtins.{OneNumberALine, methods_of};
ghost use Rattle.cr_prelude.specs.declared.class.BuiltinClass.TheVariants as c;
ghost use Rattle.cr_prelude.specs.Methods as methods;

/// No two lines are the same, so each has one number.
#[tactic(auto, using(crate::proofs::Apart::one_number_a_line))]
pub fn one_number_a_line()
    ensures { OneNumberALine }
{}

/// Each class has its methods, and no others.
#[tactic(auto, unfolding(crate::specs::Builtins::lines, crate::specs::Builtins::same_class, crate::specs::Builtins::methods_of))]
pub fn builtins_are_listed()
    ensures object { methods_of c.Object ≡ methods.object_methods }
    ensures nil { methods_of c.Nil ≡ methods.nil_methods }
    ensures bool { methods_of c.Bool ≡ methods.bool_methods }
    ensures int32 { methods_of c.Int32 ≡ methods.integer_methods }
    ensures int64 { methods_of c.Int64 ≡ methods.integer_methods }
    ensures string { methods_of c.String ≡ methods.string_methods }
    ensures array { methods_of c.Array ≡ methods.array_methods }
    ensures hash { methods_of c.Hash ≡ methods.hash_methods }
    ensures channel { methods_of c.Channel ≡ methods.channel_methods }
    ensures concurrent { methods_of c.Concurrent ≡ methods.concurrent_methods }
    ensures parallel { methods_of c.Parallel ≡ methods.parallel_methods }
    ensures isolated { methods_of c.Isolated ≡ methods.isolated_methods }
{}
