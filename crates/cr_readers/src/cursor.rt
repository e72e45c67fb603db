//! A place in a list of tokens. Each step is one of the readers'.

ghost use Rattle.std.specs.Prelude.{◌≡◌, drop};
ghost use Rattle.cr_grammar.specs.Operators as operators;
ghost use Rattle.cr_readers.specs.Reader as reader;
ghost use Rattle.cr_readers.specs.Cursor as spec;
ghost use Rattle.cr_readers.specs.Cursor.{state_of, IsFirst};
ghost use Rattle.cr_readers.specs.Reads.{Restores, Steps};

use crate::fault::ParseFault;
use crate::looks::{begins_value, is_minus};
use cr_grammar::Within;
use cr_syntax::{Token, TokenLook};

/// So many nodes may be open in one another.
pub const MAX_NESTING: u32 = 200;

/// So many nodes a tree may have.
pub const MAX_NODES: u32 = 200_000;

/// A place in a list of tokens, and what surrounds it.
#[derive(Drop)]
pub struct Cursor<'t> {
    /// The whole list.
    pub list: &'t [Token],
    /// The place: so many tokens stand before it.
    pub at: usize,
    /// How many nodes are open round the place.
    pub depth: u32,
    /// How many nodes there are so far.
    pub nodes: u32,
    /// How high the node is that was read last. At the start it is 1, as if there were one without parts.
    pub height: u32,
    /// What surrounds the place.
    pub within: Within,
}

fn same_look(a: TokenLook, b: TokenLook) -> bool
    ensures { result ≡ reader.same_look a b }
{
    a == b
}

impl<'t> Cursor<'t> {
    /// At the start of the list, with no node.
    pub fn new(list: &'t [Token], within: Within) -> Cursor<'t>
        ensures state { state_of result ≡ spec.start_of list.now }
        ensures within { result.within ≡ within }
    {
        Cursor {
            list,
            at: 0,
            depth: 0,
            nodes: 0,
            height: 1,
            within,
        }
    }

    /// This very cursor, for a caller that goes back to it after an error.
    pub fn mark(&self) -> Cursor<'t>
        ensures { result ≡ self.now }
    {
        Cursor {
            list: self.list,
            at: self.at,
            depth: self.depth,
            nodes: self.nodes,
            height: self.height,
            within: self.within,
        }
    }

    /// Goes back to where it was when it was marked.
    pub fn go_back(&mut self, before: Cursor<'t>)
        ensures { self.new ≡ before.entry }
    {
        *self = before;
    }

    fn token_at(&self, at: usize) -> Option<&'t Token>
        ensures { IsFirst result (drop at self.now.list.now) }
    {
        self.list.get(at)
    }

    /// The next token.
    pub fn token(&self) -> Option<&'t Token>
        ensures { IsFirst result (state_of self.now).rest }
    {
        self.token_at(self.at)
    }

    /// The look of the next token; that of the end where there is none.
    pub fn look(&self) -> TokenLook
        ensures { result ≡ reader.look_at (state_of self.now).rest }
    {
        match self.token() {
            Some(token) => token.kind.look(),
            None => TokenLook::End,
        }
    }

    /// The byte place of the next token; 0 where there is none.
    pub fn place(&self) -> u32
        ensures { result ≡ reader.place_at (state_of self.now).rest }
    {
        match self.token() {
            Some(token) => token.span.first,
            None => 0,
        }
    }

    fn is_tight_at(&self, at: usize) -> bool
        ensures { result ≡ reader.passes spec.any_tight (drop at self.now.list.now) }
    {
        match self.token_at(at) {
            Some(token) => !token.spaced,
            None => false,
        }
    }

    /// Whether there is a next token and it is tight.
    pub fn is_tight(&self) -> bool
        ensures { result ≡ reader.passes spec.any_tight (state_of self.now).rest }
    {
        self.is_tight_at(self.at)
    }

    /// The look of the token that was read last: that of a line feed at the start of the list, and that of the end behind its end.
    pub fn before(&self) -> TokenLook
        ensures { result ≡ (state_of self.now).before }
    {
        if self.at == 0 {
            return TokenLook::Newline;
        }
        match self.token_at(self.at - 1) {
            Some(token) => token.kind.look(),
            None => TokenLook::End,
        }
    }

    /// Whether the next token has this look.
    pub fn sees(&self, look: TokenLook) -> bool
        ensures { result ≡ reader.passes (reader.seen look) (state_of self.now).rest }
    {
        match self.token() {
            Some(token) => same_look(token.kind.look(), look),
            None => false,
        }
    }

    /// Whether the next token has this look and is tight.
    pub fn sees_tight(&self, look: TokenLook) -> bool
        ensures { result ≡ reader.passes (reader.tight_seen look) (state_of self.now).rest }
    {
        match self.token() {
            Some(token) => !token.spaced && same_look(token.kind.look(), look),
            None => false,
        }
    }

    /// Whether an argument without parentheses begins here: with a spaced token that begins one, or with a spaced `-` whose
    /// next token is tight.
    pub fn begins_argument(&self) -> bool
        ensures { result ≡ operators.begins_argument (state_of self.now).rest }
    {
        match self.token() {
            Some(token) => {
                let look = token.kind.look();
                token.spaced
                    && (begins_value(look) || is_minus(look) && self.is_tight_at(self.at + 1))
            }
            None => false,
        }
    }

    /// What is told of the next token where it is not accepted.
    pub fn refuse(&self) -> ParseFault
        ensures { result ≡ ParseFault.Unexpected (reader.place_at (state_of self.now).rest) }
    {
        ParseFault::Unexpected(self.place())
    }

    /// Goes behind the next token. Behind the last one it goes a step further, where the end is what was read last.
    pub fn take(&mut self)
        ensures state { state_of self.new ≡ reader.next (state_of self.old) }
        ensures within { self.new.within ≡ self.old.within }
    {
        if self.at <= self.list.len() {
            self.at += 1;
        }
    }

    /// Goes behind the next token if it has this look, and tells whether it does.
    #[tactic(auto, unfolding(crate::specs::Cursor::after))]
    pub fn eat(&mut self, look: TokenLook) -> bool
        ensures found { result ≡ reader.passes (reader.seen look) (state_of self.old).rest }
        ensures state { state_of self.new ≡ spec.after look (state_of self.old) }
        ensures within { self.new.within ≡ self.old.within }
    {
        let found = self.sees(look);
        if found {
            self.take();
        }
        found
    }

    /// Goes behind the next token and tells its place. Where it has another look, or there is none, it is Unexpected, and nothing
    /// changes.
    pub fn expect(&mut self, look: TokenLook) -> Result<u32, ParseFault>
        ensures state { Steps (reader.expect look (state_of self.old)) result (state_of self.new) }
        ensures restores { Restores result self.old self.new }
        ensures within { self.new.within ≡ self.old.within }
    {
        if self.sees(look) {
            let place = self.place();
            self.take();
            Ok(place)
        } else {
            Err(self.refuse())
        }
    }

    /// The token at this place makes a node on top of so many levels. It is TooDeep where more than `MAX_NESTING` would be open in
    /// one another, else TooManyNodes where there are `MAX_NODES` already; then nothing changes.
    fn node_above(&mut self, place: u32, height: u32) -> Result<(), ParseFault>
        ensures state { Steps (reader.node_above place height (state_of self.old)) result (state_of self.new) }
        ensures restores { Restores result self.old self.new }
        ensures within { self.new.within ≡ self.old.within }
    {
        if self.depth >= MAX_NESTING || height >= MAX_NESTING - self.depth {
            return Err(ParseFault::TooDeep(place));
        }
        if self.nodes >= MAX_NODES {
            return Err(ParseFault::TooManyNodes(place));
        }
        self.nodes += 1;
        self.height = height + 1;
        Ok(())
    }

    /// The token at this place makes a node of its own. TooDeep and TooManyNodes come as the limits say, and nothing changes then.
    #[tactic(auto, unfolding(crate::specs::Reader::grow))]
    pub fn grow(&mut self, place: u32) -> Result<(), ParseFault>
        ensures state { Steps (reader.grow place (state_of self.old)) result (state_of self.new) }
        ensures restores { Restores result self.old self.new }
        ensures within { self.new.within ≡ self.old.within }
    {
        self.node_above(place, 0)
    }

    /// The token at this place makes a node above what was read last. TooDeep and TooManyNodes come as the limits say, and nothing
    /// changes then.
    #[tactic(auto, unfolding(crate::specs::Reader::wrap))]
    pub fn wrap(&mut self, place: u32) -> Result<(), ParseFault>
        ensures state { Steps (reader.wrap place (state_of self.old)) result (state_of self.new) }
        ensures restores { Restores result self.old self.new }
        ensures within { self.new.within ≡ self.old.within }
    {
        self.node_above(place, self.height)
    }

    /// Goes into a part of the node that was begun last, and tells how high that is so far.
    #[tactic(auto, unfolding(crate::specs::Cursor::entered))]
    pub fn enter(&mut self) -> u32
        ensures height { result ≡ (state_of self.old).height }
        ensures state { state_of self.new ≡ spec.entered (state_of self.old) }
        ensures within { self.new.within ≡ self.old.within }
    {
        self.depth = self.depth.saturating_add(1);
        self.height
    }

    /// Comes back from a part of a node that was this high before.
    #[tactic(auto, unfolding(crate::specs::Cursor::left_part))]
    pub fn leave(&mut self, height: u32)
        ensures state { state_of self.new ≡ spec.left_part height (state_of self.old) }
        ensures within { self.new.within ≡ self.old.within }
    {
        self.depth = self.depth.saturating_sub(1);
        self.height = height.max(self.height.saturating_add(1));
    }

    /// Comes back from what stands beside what was this high, on one level.
    #[tactic(auto, unfolding(crate::specs::Cursor::left_beside))]
    pub fn leave_beside(&mut self, height: u32)
        ensures state { state_of self.new ≡ spec.left_beside height (state_of self.old) }
        ensures within { self.new.within ≡ self.old.within }
    {
        self.height = height.max(self.height);
    }
}
