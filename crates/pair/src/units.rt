// How one unit moves, and what it costs.
ghost use Rattle.std.specs.Prelude.{◌≡◌, ◌≤◌, ◌*◌, IfSome, is_some};
ghost use Rattle.pair.specs.Limits.{hundred};
ghost use Rattle.pair.specs.States.{has_grade};
ghost use Rattle.pair.specs.Units.{hundredths, staying, failed, attended, row_grade, renewal_cents, dark_seconds, HasGrade, Working, LawfulGrades};

use crate::limits::HUNDRED;
use crate::numbers::UnitNumbers;
use crate::states::Grades;

// A row by which a unit moves: that of a grade below the failed one, of a unit whose rows add up.
#[derive(Clone, Copy)]
pub(crate) struct Row<'a> {
    pub(crate) unit: &'a UnitNumbers,
    pub(crate) grade: usize,
    ghost lawful: { LawfulGrades unit.now },
    ghost working: { Working unit.now grade },
}

impl<'a> Row<'a> {
    // The hundredths of a next grade. That the unit has the grade is asked here, in weight and in row_from: Grades are two plain
    // numbers, which anyone may fill, so a struct with that fact would be no plainer, being made anew for each of these calls.
    pub(crate) fn chance(self, next: usize) -> u32
        requires { HasGrade self.unit.now next }
        ensures value { result ≡ hundredths self.entry.unit.now self.entry.grade next }
        ensures small { result ≤ hundred }
    {
        self.unit.rows[self.grade - 1][next - 1]
    }

    // The hundredths of staying below the failed grade: what the row leaves beside failing.
    pub(crate) fn staying(self) -> u32
        ensures value { result ≡ staying self.entry.unit.now self.entry.grade }
        ensures small { result ≤ hundred }
    {
        HUNDRED - self.chance(self.unit.grades)
    }
}

// The rows by which both units move.
#[derive(Clone, Copy)]
pub(crate) struct Rows<'a> {
    pub(crate) one: Row<'a>,
    pub(crate) two: Row<'a>,
}

impl<'a> Rows<'a> {
    // The ten-thousandths of both units staying below their failed grades.
    pub(crate) fn survival(self) -> u32
        ensures { result ≡ staying self.entry.one.unit.now self.entry.one.grade * staying self.entry.two.unit.now self.entry.two.grade }
    {
        self.one.staying() * self.two.staying()
    }

    // The ten-thousandths of both next grades.
    pub(crate) fn weight(self, next: Grades) -> u32
        requires { HasGrade self.one.unit.now next.one × HasGrade self.two.unit.now next.two }
        ensures { result ≡ hundredths self.entry.one.unit.now self.entry.one.grade next.one * hundredths self.entry.two.unit.now self.entry.two.grade next.two }
    {
        self.one.chance(next.one) * self.two.chance(next.two)
    }
}

impl UnitNumbers {
    pub(crate) fn has_grade(&self, grade: usize) -> bool
        ensures { result ≡ has_grade self.now grade }
    {
        (1..=self.grades).contains(&grade)
    }

    fn is_failed(&self, grade: usize) -> bool
        ensures { result ≡ failed self.now grade }
    {
        grade == self.grades
    }

    // The row by which the unit moves when it is renewed.
    pub(crate) fn first_row(&self) -> Row<'_>
        requires { LawfulGrades self.now }
        ensures { (result.unit.now ≡ self.now) × (result.grade ≡ 1) }
    {
        Row {
            unit: self,
            grade: 1,
        }
    }

    // The row by which the unit moves, that of grade 1 if it is renewed; absent exactly when it is failed and not renewed.
    pub(crate) fn row_from(&self, renewed: bool, grade: usize) -> Option<Row<'_>>
        requires { LawfulGrades self.now × HasGrade self.now grade }
        ensures present { is_some result ≡ attended self.now renewed grade }
        ensures row { IfSome result (λ r. (r.unit.now ≡ self.now) × (r.grade ≡ row_grade renewed grade)) }
    {
        if renewed {
            Some(self.first_row())
        } else if self.is_failed(grade) {
            None
        } else {
            Some(Row { unit: self, grade })
        }
    }

    // The cents of a renewal, if there is one.
    pub(crate) fn renewal_cents(&self, renewed: bool, grade: usize) -> u32
        ensures { result ≡ renewal_cents self.now renewed grade }
    {
        if !renewed {
            0
        } else if self.is_failed(grade) {
            self.forced
        } else {
            self.planned
        }
    }

    pub(crate) fn dark_seconds(&self, grade: usize) -> u32
        ensures { result ≡ dark_seconds self.now grade }
    {
        if self.is_failed(grade) { self.dark } else { 0 }
    }
}
