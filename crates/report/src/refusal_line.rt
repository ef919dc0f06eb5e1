// The line that stands for a sheet where there is a refusal.
ghost use Rattle.std.specs.Prelude.{◌≡◌, length};
ghost use Rattle.columns.specs.Line.{at_front, put_length};
ghost use Rattle.report.specs.Sheet.{refusal_line_of};

use columns::writer::ColumnWriter;

// Puts the `E` line from the front of the bytes and gives its length; where it does not fit, nothing and 0.
#[tactic(auto, using(columns::proofs::Stamps::put_front), unfolding(crate::specs::Sheet::refusal_line_of))]
pub fn write_refusal(out: &mut [u8], refusal: u64, line: u64) -> usize
    ensures value { result ≡ put_length (refusal_line_of refusal line) (length out.old) }
    ensures out_after { out.new ≡ at_front (refusal_line_of refusal line) out.old }
{
    let mut writer = ColumnWriter::new(out);
    writer.line(b"E", &[refusal, line]);
    writer.place()
}
