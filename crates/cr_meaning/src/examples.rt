//! What the definitions come to on examples.

ghost use Rattle.cr_meaning.specs.Counts.{CallCounts, Counts, FiberCounts};
ghost use Rattle.cr_meaning.specs.Examples.{AMeeting, ASum, TwoCounters};

/// A line is written, and which histories are too long, wait for nothing or end early.
pub fn a_sum_is_printed()
    ensures { ASum }
{}

/// Two choices that meet: the receiver goes on with what the sender's clause sends, and its `else` is not taken.
pub fn choices_meet()
    ensures { AMeeting }
{}

/// Two fibers that count one object up: what they come to depends on the order in which they read and write, and not what they spend.
pub fn fibers_interleave()
    ensures { TwoCounters }
{}

/// How many reductions each form of a program takes: values, control and loops.
pub fn forms_are_counted()
    ensures { Counts }
{}

/// How many reductions calls take: of methods with blocks, of `super`, and the making of objects.
pub fn calls_are_counted()
    ensures { CallCounts }
{}

/// How many reductions the operations on channels, choices, fibers and contexts take.
pub fn fibers_are_counted()
    ensures { FiberCounts }
{}
