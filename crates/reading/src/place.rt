// The place of a line in a file.
ghost use Rattle.std.specs.Prelude.{◌≤◌};

// Before the line stand the B line, so many S lines, and so many M lines with their D lines.
#[derive(Clone, Copy)]
pub(crate) struct Place {
    pub(crate) storeys: usize,
    pub(crate) members: usize,
    ghost few_storeys: { storeys ≤ 10 },
    ghost few_members: { members ≤ 2000 },
}
