// What can be wrong with a line.
ghost use Rattle.std.specs.Prelude.{◌≡◌};
ghost use Rattle.mot_fault.specs.Form as Form;
ghost use Rattle.mot_fault.specs.Value as Value;

#[derive(Clone, Copy, Debug, PartialEq, Eq)]
pub enum Fault {
    // of the line
    NoLineFeed,
    EmptyLine,
    CarriageReturn,
    FieldCount,
    // of a field's form
    Empty,
    OtherByte,
    MinusAlone,
    NoDigits,
    ManyDigits,
    NoDecimals,
    ManyDecimals,
    NotMinusOne,
    FilledId,
    // of a value
    FrameZero,
    FrameBack,
    FirstFrameFar,
    FrameFar,
    NotAboveZero,
    Beyond,
    BelowZero,
    AboveOne,
}

// A fault of a field, and the byte of the field where it shows, counted from 1, or 0.
// Kept: 0 for none, as the definitions of Form and Value have it and the program prints by it.
#[derive(Clone, Copy, Debug, PartialEq, Eq)]
pub struct Found {
    pub fault: Fault,
    pub byte: usize,
}

// A fault of a line: the field, counted from 1, and the byte of it. A FieldCount has how many fields there are, 11 where there are more; the other faults of the line have 0.
#[derive(Clone, Copy, Debug, PartialEq, Eq)]
pub struct Report {
    pub fault: Fault,
    pub field: usize,
    pub byte: usize,
}

// This fault at this byte.
pub(crate) fn at(fault: Fault, byte: usize) -> Result<(), Found>
    ensures { result ≡ Form.at fault byte }
{
    Err(Found { fault, byte })
}

// Of the line itself.
pub(crate) fn of_line(fault: Fault, field: usize) -> Result<(), Report>
    ensures { result ≡ Value.reported fault field 0 }
{
    Err(Report {
        fault,
        field,
        byte: 0,
    })
}
