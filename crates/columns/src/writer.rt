// A writer of columns: it puts text and numbers into lent bytes, one after another.
ghost use Rattle.std.specs.Prelude.{◌≡◌, ◌+◌, ◌*◌, ◌≤◌, leb, length};
ghost use Rattle.format.specs.Spelling.{spelled};
ghost use Rattle.columns.specs.Line.{line, printed_numbers};
ghost use Rattle.columns.specs.Bytes.{KeptOutside};
ghost use Rattle.columns.specs.Writer.{HasRoom, Written, WrittenIfRoom};

use format::spelling::put_number;

// The lent bytes, and the place after what was put.
#[derive(Drop)]
pub struct ColumnWriter<'a> {
    bytes: &'a mut [u8],
    at: usize,
}

impl<'a> ColumnWriter<'a> {
    // A writer from a place on. Past the end of the bytes nothing fits.
    pub fn from_place(bytes: &'a mut [u8], at: usize) -> ColumnWriter<'a>
        ensures same_bytes { result.bytes.ghost_name ≡ bytes.entry.ghost_name }
        ensures bytes { result.bytes.now ≡ bytes.old }
        ensures at { result.at ≡ at }
    {
        ColumnWriter { bytes, at }
    }

    // A writer from the front of some bytes.
    pub fn new(bytes: &'a mut [u8]) -> ColumnWriter<'a>
        ensures same_bytes { result.bytes.ghost_name ≡ bytes.entry.ghost_name }
        ensures bytes { result.bytes.now ≡ bytes.old }
        ensures at { result.at ≡ 0 }
    {
        ColumnWriter::from_place(bytes, 0)
    }

    // The place after what was put.
    pub fn place(&self) -> usize
        ensures { result ≡ self.now.at }
    {
        self.at
    }

    // So many bytes fit from the place on.
    fn has_room(&self, size: usize) -> bool
        ensures { result ≡ leb (self.now.at + size) (length self.now.bytes.now) }
    {
        self.at <= self.bytes.len() && size <= self.bytes.len() - self.at
    }

    // Puts bytes as they stand. Those that do not fit change nothing.
    pub fn text(&mut self, text: &[u8])
        ensures { WrittenIfRoom text.now self.old self.new }
    {
        if !self.has_room(text.len()) {
            return;
        }
        let end = self.at + text.len();
        self.bytes[self.at..end].copy_from_slice(text);
        self.at = end;
    }

    // Puts a number in a field of so many columns: blanks, its sign directly before its digits. A field that does not fit changes nothing.
    pub fn field(&mut self, width: usize, sign: u8, n: u64)
        ensures written { WrittenIfRoom (spelled width sign n) self.old self.new }
        ensures kept_outside { KeptOutside self.old.at width self.old.bytes.now self.new.bytes.now }
    {
        if !self.has_room(width) {
            return;
        }
        let end = self.at + width;
        put_number(&mut self.bytes[self.at..end], sign, n);
        self.at = end;
    }

    // Puts numbers in fields of 12 columns.
    fn numbers(&mut self, values: &[u64])
        requires { HasRoom (length (printed_numbers values.now)) self.old }
        ensures { Written (printed_numbers values.now) self.old self.new }
    {
        for v in values {
            self.field(12, b' ', *v);
        }
    }

    // A line of so many fields, with a tag of so many bytes, fits from the place on.
    fn has_line_room(&self, tag_size: usize, field_count: usize) -> bool
        ensures { result ≡ leb (self.now.at + (tag_size + (12 * field_count + 1))) (length self.now.bytes.now) }
    {
        let room = self.bytes.len();
        if room / 12 < field_count {
            return false;
        }
        let left = room - 12 * field_count;
        tag_size < left && self.at < left - tag_size
    }

    // Puts a line: its tag, its fields, LF. One that does not fit changes nothing.
    pub fn line(&mut self, tag: &[u8], values: &[u64])
        ensures { WrittenIfRoom (line tag.now values.now) self.old self.new }
    {
        if !self.has_line_room(tag.len(), values.len()) {
            return;
        }
        self.text(tag);
        self.numbers(values);
        self.text(b"\n");
    }
}
