// The text that is parsed.
ghost use Rattle.std.specs.Prelude.{◌≡◌, ◌≤◌, length};
ghost use Rattle.data.specs.Classes.{classes};
ghost use Rattle.parse.specs.Parse.{text_limit};

// A text within the limit, which is tested once, where the parse begins; and the table by which the runs of a parameter are cut.
#[derive(Clone, Copy)]
pub(crate) struct Text<'a> {
    pub bytes: &'a [u8],
    pub table: &'a [u8; data::BYTE_COUNT],
    ghost within: { length bytes.now ≤ text_limit },
    ghost told: { table.now ≡ classes },
}
