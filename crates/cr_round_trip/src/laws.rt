//! What is claimed of layouts.
ghost use Rattle.cr_round_trip.specs.Laws.{PlacesLeaveNoTrace, LayoutHasTokens, RoundTrip, FormatIsStill};

/// Two trees that differ in places alone have one layout.
pub fn places_leave_no_trace()
    ensures { PlacesLeaveNoTrace }
{}

/// The layout of each tree that the tokens of a text spell as a program is a text with tokens: those that it was written with.
pub fn layout_has_tokens()
    ensures { LayoutHasTokens }
{}

/// The round trip: where the tokens of a text spell a tree as a program, the layout of that tree is a text, it has tokens, and
/// these spell a tree that is the same but for places.
pub fn round_trip()
    ensures { RoundTrip }
{}

/// A second `format` changes nothing: the layout of what a layout is read as is that layout again.
pub fn format_is_still()
    ensures { FormatIsStill }
{}
