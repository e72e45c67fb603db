//! Core forms of texts with insertions.

ghost use Rattle.std.specs.Prelude.{◌≤◌, true, false, length, take, OnOk};
ghost use Rattle.cr_core.specs.declared.form.Form.TheVariants as f;
ghost use Rattle.cr_making.specs.Made.{Makes};
ghost use Rattle.cr_making.specs.Knot.{Rewrites};
ghost use Rattle.cr_making.specs.Terms as t;
ghost use Rattle.cr_rewrite.specs.Left as left;
ghost use Rattle.cr_making.specs.Table.{part, parts};

use crate::terms::Terms;
use cr_base::{NameId, NoMemory};
use cr_core::Form;
use cr_grammar::Tree;
use cr_making::{Maker, View, sent_form};
use cr_syntax::TokenText;
use sqlite_items::Items;

impl<F: Fn(&mut Maker, usize, View, &Tree) -> Result<(), NoMemory>> Terms<F> {
    pub fn insertions(
        &self,
        maker: &mut Maker,
        at: u32,
        texts: &Items<TokenText>,
        inserted: &Items<Tree>,
    ) -> Result<(), NoMemory>
        requires { Rewrites self.now.constructs.rewriter.fuel (F.pre self.now.constructs.rewriter.rewrite) (F.post self.now.constructs.rewriter.rewrite) }
        ensures { OnOk result (Makes (t.insertions at texts.now (parts inserted.now)) maker.old maker.new) }
    {
        let plus = maker.name("+")?;
        let to_s = maker.name("to_s")?;
        self.joined_text(maker, at, plus, to_s, texts.as_slice(), inserted.as_slice())?;
        Ok(())
    }

    fn joined_text(
        &self,
        maker: &mut Maker,
        at: u32,
        plus: NameId,
        to_s: NameId,
        texts: &[TokenText],
        inserted: &[Tree],
    ) -> Result<(), NoMemory>
        requires { Rewrites self.now.constructs.rewriter.fuel (F.pre self.now.constructs.rewriter.rewrite) (F.post self.now.constructs.rewriter.rewrite) }
        ensures { OnOk result (Makes (t.joined_text at plus to_s texts.now (parts inserted.now)) maker.old maker.new) }
    {
        let Some((first, others)) = texts.split_first() else {
            maker.leaf(Form::Nil, at)?;
            return Ok(());
        };
        let count = others.len().min(inserted.len());
        self.open_sums(maker, at, plus, count)?;
        self.text(maker, at, first)?;
        self.insert(maker, at, to_s, others, inserted, count)?;
        Ok(())
    }

    /// Each insertion ends a sum, and each text behind it another.
    fn insert(
        &self,
        maker: &mut Maker,
        at: u32,
        to_s: NameId,
        texts: &[TokenText],
        inserted: &[Tree],
        count: usize,
    ) -> Result<(), NoMemory>
        requires rewrites { Rewrites self.now.constructs.rewriter.fuel (F.pre self.now.constructs.rewriter.rewrite) (F.post self.now.constructs.rewriter.rewrite) }
        requires texts { count ≤ length texts.now }
        requires inserted { count ≤ length inserted.now }
        ensures { OnOk result (left.Follows (t.insertions_with at to_s (take count texts.now) (parts (take count inserted.now))) maker.old maker.new) }
    {
        for i in 0..count {
            self.insertion(maker, at, to_s, &inserted[i])?;
            maker.close()?;
            self.text(maker, at, &texts[i])?;
            maker.close()?;
        }
        Ok(())
    }

    /// Begins two sums for each insertion.
    fn open_sums(
        &self,
        maker: &mut Maker,
        at: u32,
        plus: NameId,
        count: usize,
    ) -> Result<(), NoMemory>
        requires { Rewrites self.now.constructs.rewriter.fuel (F.pre self.now.constructs.rewriter.rewrite) (F.post self.now.constructs.rewriter.rewrite) }
        ensures { OnOk result (left.Opens (left.twice count) (f.Call plus true false) at maker.old maker.new) }
    {
        for i in 0..count {
            maker.open(sent_form(plus), at)?;
            maker.open(sent_form(plus), at)?;
        }
        Ok(())
    }

    /// `Call(e, to_s)`
    fn insertion(
        &self,
        maker: &mut Maker,
        at: u32,
        to_s: NameId,
        inserted: &Tree,
    ) -> Result<(), NoMemory>
        requires { Rewrites self.now.constructs.rewriter.fuel (F.pre self.now.constructs.rewriter.rewrite) (F.post self.now.constructs.rewriter.rewrite) }
        ensures { OnOk result (Makes (t.insertion at to_s (part inserted.now)) maker.old maker.new) }
    {
        maker.open(sent_form(to_s), at)?;
        self.constructs.rewriter.one(maker, View::Term, inserted)?;
        maker.close()?;
        Ok(())
    }
}
