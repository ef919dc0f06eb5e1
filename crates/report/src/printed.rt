// The lines of a storey in one load case, and the building's.
ghost use Rattle.std.specs.Prelude.{◌||◌, ◌≡◌, ◌+◌, ◌<◌, length, drop};
ghost use Rattle.records.specs.Notation.{pick};
ghost use Rattle.records.specs.Forms.{form_number};
ghost use Rattle.records.specs.Records.{in_cases, case_count, shear_of};
ghost use Rattle.storeys.specs.Storey.{published_rules, case_risky};
ghost use Rattle.storeys.specs.Building.{tilted};
ghost use Rattle.storeys.specs.Tally.{tally_of};
ghost use Rattle.columns.specs.Writer.{HasRoom, Written};
ghost use Rattle.report.specs.Sheet.{member_line, storey_line, building_line, member_lines, case_lines};

use columns::writer::ColumnWriter;
use members::finding::Finding;
use members::good_case::GoodCase;
use records::Header;
use records::form::Form;
use storeys::building::is_tilted;
use storeys::good_storey::GoodStorey;
use storeys::storey::walls_suffice;
use totals::{StoreyFinding, Tally};

// A good storey in one load case of its form, counted from 0.
#[derive(Clone, Copy)]
pub(crate) struct StoreyCase<'a> {
    pub good: GoodStorey<'a>,
    pub case: usize,
    ghost in_form: { case < case_count (form_number good.form) },
}

impl StoreyCase<'_> {
    // The fields of a line: the old form leaves out the first, the case number.
    fn fields<'v>(&self, values: &'v [u64]) -> &'v [u64]
        requires { 0 < length values.now }
        ensures { result.now ≡ pick (in_cases (form_number self.now.good.form)) values.now (drop 1 values.now) }
    {
        match self.good.form {
            Form::Old => &values[1..],
            Form::FourCases => values,
        }
    }

    // The case number as it is printed.
    fn case_number(&self) -> u64
        ensures { result ≡ self.now.case + 1 }
    {
        self.case as u64 + 1
    }

    // The `M` line of a member with this number.
    #[tactic(auto, using(crate::proofs::Printing::line_put, crate::proofs::Printing::flag_is), unfolding(crate::specs::Sheet::member_line))]
    fn put_member_line(&self, writer: &mut ColumnWriter, number: u64, f: &Finding)
        requires { HasRoom (length (member_line (form_number self.now.good.form) self.now.case number f.now)) writer.old }
        ensures { Written (member_line (form_number self.now.good.form) self.now.case number f.now) writer.old writer.new }
    {
        let values = [
            self.case_number(),
            number,
            f.class.code(),
            f.m.0,
            f.m_limit.0,
            f.rotation.0,
            f.rotation_limit.0,
            u64::from(f.over),
        ];
        writer.line(b"M", self.fields(&values));
    }

    // The `S` line of the storey.
    #[tactic(auto, using(crate::proofs::Printing::line_put, crate::proofs::Printing::flag_is), unfolding(crate::specs::Sheet::storey_line))]
    fn put_storey_line(&self, writer: &mut ColumnWriter, f: &StoreyFinding)
        requires { let g = self.now.good in HasRoom (length (storey_line (form_number g.form) self.now.case g.storey.now.number f.now)) writer.old }
        ensures { let g = self.now.good in Written (storey_line (form_number g.form) self.now.case g.storey.now.number f.now) writer.old writer.new }
    {
        let values = [
            self.case_number(),
            self.good.storey.number,
            f.axial_total,
            f.members,
            f.over_shear,
            f.shear,
            u64::from(f.risky),
        ];
        writer.line(b"S", self.fields(&values));
    }

    // The members, each judged once with the 0.40 condition: their lines and their totals.
    fn put_members(&self, writer: &mut ColumnWriter, met: bool) -> Tally
        requires { let g = self.now.good in HasRoom (length (member_lines (form_number g.form) g.level.hundredths met self.now.case g.members.now)) writer.old }
        ensures tally { let g = self.now.good in result ≡ tally_of g.level.hundredths met self.now.case g.members.now }
        ensures written { let g = self.now.good in Written (member_lines (form_number g.form) g.level.hundredths met self.now.case g.members.now) writer.old writer.new }
    {
        let mut tally = Tally::none();
        for m in self.good.members {
            let one = GoodCase {
                case: m.in_case(self.case),
                level: self.good.level,
            };
            let finding = one.find(met);
            self.put_member_line(writer, m.number, &finding);
            tally = tally.with_finding(&finding, &one.case);
        }
        tally
    }

    // The members' lines, then the storey's. Whether it is Risky in the case.
    pub(crate) fn put(&self, writer: &mut ColumnWriter) -> bool
        requires { let g = self.now.good in HasRoom (length (case_lines (form_number g.form) g.level.hundredths g.storey.now g.members.now self.now.case)) writer.old }
        ensures risky { let g = self.now.good in result ≡ case_risky published_rules g.level.hundredths self.now.case (shear_of self.now.case g.storey.now) g.members.now }
        ensures written { let g = self.now.good in Written (case_lines (form_number g.form) g.level.hundredths g.storey.now g.members.now self.now.case) writer.old writer.new }
    {
        let shear = self.good.storey.shear(self.case);
        let met = walls_suffice(shear, self.good.members, self.case);
        let tally = self.put_members(writer, met);
        let finding = StoreyFinding::of(shear, met, &tally);
        self.put_storey_line(writer, &finding);
        finding.risky
    }
}

// The last line, after all storeys: whether some storey is Risky is given.
#[tactic(auto, using(crate::proofs::Printing::line_put, crate::proofs::Printing::flag_is), unfolding(crate::specs::Sheet::building_line))]
pub(crate) fn put_building(writer: &mut ColumnWriter, h: &Header, some_risky: bool)
    requires { HasRoom (length (building_line (tilted h.now) (some_risky || tilted h.now))) writer.old }
    ensures { Written (building_line (tilted h.now) (some_risky || tilted h.now)) writer.old writer.new }
{
    let tilt = is_tilted(h);
    let risky = some_risky | tilt;
    writer.line(b"B", &[u64::from(tilt), u64::from(risky)]);
}
