// The lines of a survey file, put by a writer of columns one after another. No methods of a struct that holds the writer: tried, and the proof did not close, as it
// follows lent bytes into a struct, and not into one that holds another.
ghost use Rattle.std.specs.Prelude.{◌≡◌, length};
ghost use Rattle.records.specs.Forms.{form_number};
ghost use Rattle.records.specs.Records.{storey_kind, header_values, storey_values};
ghost use Rattle.records.specs.declared.Kind.TheVariants.{B};
ghost use Rattle.format.specs.Text.{field_text, fields_text, line_text, cases_text, member_text};
ghost use Rattle.columns.specs.Writer.{HasRoom, Written};
ghost use Rattle.checks.specs.RowChecks.{records_of};
ghost use Rattle.writing.specs.File.{members_text, storey_text, storeys_text, file_text};

use checks::Survey;
use columns::writer::ColumnWriter;
use format::lines::{is_force, tag_byte};
use records::form::Form;
use records::{CASES, Header, Kind, Member, Storey, ZERO_FORCE};

// A number as it is held, in its 8 columns: a force with its sign.
fn put_number(writer: &mut ColumnWriter, force: bool, v: u64)
    requires { HasRoom (length (field_text force v)) writer.old }
    ensures { Written (field_text force v) writer.old writer.new }
{
    if !force {
        writer.field(8, b' ', v);
    } else if v < ZERO_FORCE {
        writer.field(8, b'-', ZERO_FORCE - v);
    } else {
        writer.field(8, b' ', v - ZERO_FORCE);
    }
}

// The fields of a line.
fn put_numbers(writer: &mut ColumnWriter, kind: Kind, values: &[u64])
    requires { HasRoom (length (fields_text kind 0 values.now)) writer.old }
    ensures { Written (fields_text kind 0 values.now) writer.old writer.new }
{
    for (j, v) in values.iter().enumerate() {
        put_number(writer, is_force(kind, j), *v);
    }
}

// A line: its tag, its fields, LF.
fn put_line(writer: &mut ColumnWriter, kind: Kind, values: &[u64])
    requires { HasRoom (length (line_text kind values.now)) writer.old }
    ensures { Written (line_text kind values.now) writer.old writer.new }
{
    writer.text(&[tag_byte(kind)]);
    put_numbers(writer, kind, values);
    writer.text(b"\n");
}

// The B line.
fn put_header(writer: &mut ColumnWriter, h: &Header)
    requires { HasRoom (length (line_text B (header_values h.now))) writer.old }
    ensures { Written (line_text B (header_values h.now)) writer.old writer.new }
{
    put_line(writer, Kind::B, &h.values());
}

// The S line of a storey.
fn put_storey(writer: &mut ColumnWriter, form: Form, s: &Storey)
    requires { HasRoom (length (line_text (storey_kind (form_number form)) (storey_values (form_number form) s.now))) writer.old }
    ensures { Written (line_text (storey_kind (form_number form)) (storey_values (form_number form) s.now)) writer.old writer.new }
{
    match form {
        Form::Old => put_line(writer, Kind::S, &s.values()),
        Form::FourCases => put_line(writer, Kind::S4, &s.values_in_cases()),
    }
}

// The D lines of a member. No `iter` over its cases: tried, and the proof did not close; the check finds no length of an array in a struct that is lent.
fn put_cases(writer: &mut ColumnWriter, m: &Member)
    requires { HasRoom (length (cases_text m.now 0 4)) writer.old }
    ensures { Written (cases_text m.now 0 4) writer.old writer.new }
{
    for c in 0..CASES {
        put_line(writer, Kind::D, &m.in_case(c).case.values(c as u64 + 1));
    }
}

// The lines of a member.
fn put_member(writer: &mut ColumnWriter, form: Form, m: &Member)
    requires { HasRoom (length (member_text (form_number form) m.now)) writer.old }
    ensures { Written (member_text (form_number form) m.now) writer.old writer.new }
{
    match form {
        Form::Old => put_line(writer, Kind::M, &m.in_case(0).values()),
        Form::FourCases => {
            put_line(writer, Kind::M4, &m.values());
            put_cases(writer, m);
        }
    }
}

// The lines of some members.
fn put_members(writer: &mut ColumnWriter, form: Form, rows: &[Member])
    requires { HasRoom (length (members_text (form_number form) rows.now)) writer.old }
    ensures { Written (members_text (form_number form) rows.now) writer.old writer.new }
{
    for m in rows {
        put_member(writer, form, m);
    }
}

// The storeys in turn: the S line of each, and the lines of its members.
fn put_storeys(writer: &mut ColumnWriter, form: Form, survey: &Survey)
    requires { HasRoom (length (storeys_text (form_number form) survey.now.storeys.now survey.now.members.now)) writer.old }
    ensures { Written (storeys_text (form_number form) survey.now.storeys.now survey.now.members.now) writer.old writer.new }
{
    for (storey, own) in survey.storey_rows() {
        put_storey(writer, form, storey);
        put_members(writer, form, own);
    }
}

// The lines of a survey.
pub(crate) fn put_survey(writer: &mut ColumnWriter, form: Form, survey: &Survey)
    requires { (form_number form ≡ survey.now.header.form) × HasRoom (length (file_text (records_of survey.now))) writer.old }
    ensures { Written (file_text (records_of survey.now)) writer.old writer.new }
{
    put_header(writer, &survey.header);
    put_storeys(writer, form, survey);
}
