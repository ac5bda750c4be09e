// What is left of a line, field by field.
ghost use Rattle.std.specs.Prelude.{◌≡◌, [], Decides};
ghost use Rattle.std.specs.Iterator.{YieldsFirstRef, item_count};
ghost use Rattle.console.specs.Left.{remaining};

use text::cut;

// Nothing is left where no space ended the field before.
#[derive(Clone, Copy)]
pub(crate) struct Fields<'a> {
    pub(crate) left: Option<&'a [u8]>,
}

impl Fields<'_> {
    // Is no field left? The next one is not looked at, however long it is.
    #[tactic(auto, using(crate::proofs::Lefts::none_left))]
    pub(crate) fn is_empty(&self) -> bool
        ensures { Decides result (remaining self.now ≡ []) }
    {
        self.left.is_none()
    }
}

impl<'a> Iterator for Fields<'a> {
    type Item = &'a [u8];

    ghost next_gives = { YieldsFirstRef remaining };

    ghost remaining = { item_count remaining };

    #[tactic(auto, using(crate::proofs::Lefts::first_field))]
    fn next(&mut self) -> Option<&'a [u8]> {
        let left = self.left?;
        let (field, rest) = cut(left, b' ');
        self.left = (field.len() < left.len()).then_some(rest);
        Some(field)
    }
}
