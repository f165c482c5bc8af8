// The doubleword instructions and LWU.
ghost use Rattle.std.specs.Prelude.{◌≡◌};
ghost use Rattle.usability.specs.Doubleword as W;

use decode::{
    ArithmeticImmediateOp, ArithmeticOp, Instr, LoadOp, MoveOp, MultiplyOp, ShiftOp,
    ShiftVariableOp, StoreOp,
};

// A load of a doubleword, or LWU.
pub fn double_load(op: LoadOp) -> bool
    ensures { result ≡ W.double_load op }
{
    matches!(
        op,
        LoadOp::LWU | LoadOp::LD | LoadOp::LDL | LoadOp::LDR | LoadOp::LLD
    )
}

// A store of a doubleword.
// Kept: here and below a rule for each group of operations, since each has a type of its own.
pub fn double_store(op: StoreOp) -> bool
    ensures { result ≡ W.double_store op }
{
    matches!(op, StoreOp::SD | StoreOp::SDL | StoreOp::SDR | StoreOp::SCD)
}

// A doubleword sum or difference.
pub fn double_arithmetic(op: ArithmeticOp) -> bool
    ensures { result ≡ W.double_arithmetic op }
{
    matches!(
        op,
        ArithmeticOp::DADD | ArithmeticOp::DADDU | ArithmeticOp::DSUB | ArithmeticOp::DSUBU
    )
}

// A doubleword sum with an immediate.
pub fn double_immediate(op: ArithmeticImmediateOp) -> bool
    ensures { result ≡ W.double_immediate op }
{
    matches!(
        op,
        ArithmeticImmediateOp::DADDI | ArithmeticImmediateOp::DADDIU
    )
}

// A doubleword shift.
pub fn double_shift(op: ShiftOp) -> bool
    ensures { result ≡ W.double_shift op }
{
    matches!(
        op,
        ShiftOp::DSLL
            | ShiftOp::DSRL
            | ShiftOp::DSRA
            | ShiftOp::DSLL32
            | ShiftOp::DSRL32
            | ShiftOp::DSRA32
    )
}

// A doubleword shift by a variable amount.
pub fn double_shift_variable(op: ShiftVariableOp) -> bool
    ensures { result ≡ W.double_shift_variable op }
{
    matches!(
        op,
        ShiftVariableOp::DSLLV | ShiftVariableOp::DSRLV | ShiftVariableOp::DSRAV
    )
}

// A doubleword product or quotient.
pub fn double_multiply(op: MultiplyOp) -> bool
    ensures { result ≡ W.double_multiply op }
{
    matches!(
        op,
        MultiplyOp::DMULT | MultiplyOp::DMULTU | MultiplyOp::DDIV | MultiplyOp::DDIVU
    )
}

// A doubleword move.
pub fn double_move(op: MoveOp) -> bool
    ensures { result ≡ W.double_move op }
{
    matches!(op, MoveOp::DMFC0 | MoveOp::DMTC0)
}

// A doubleword instruction or LWU.
pub fn is_double(i: Instr) -> bool
    ensures { result ≡ W.is_double i }
{
    match i {
        Instr::Load { op, .. } => double_load(op),
        Instr::Store { op, .. } => double_store(op),
        Instr::Arithmetic { op, .. } => double_arithmetic(op),
        Instr::ArithmeticImmediate { op, .. } => double_immediate(op),
        Instr::Shift { op, .. } => double_shift(op),
        Instr::ShiftVariable { op, .. } => double_shift_variable(op),
        Instr::Multiply { op, .. } => double_multiply(op),
        Instr::Move { op, .. } => double_move(op),
        _ => false,
    }
}
