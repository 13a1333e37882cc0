// Where a section stands in a table that begins with section 1.
ghost use Rattle.std.specs.Prelude.{◌<◌};

// The place of a section: its number less one.
#[derive(Clone, Copy)]
pub(crate) struct Place {
    pub(crate) index: usize,
    ghost within: { index < 24 },
}
