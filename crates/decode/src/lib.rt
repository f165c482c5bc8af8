// Decoding: from the 32 bits of a word to an instruction by its manual name.
#![tactic(auto)]

ghost use Rattle.std.specs.Prelude.{◌≡◌};
ghost use Rattle.decode.specs.Decode as D;
ghost use Rattle.decode.specs.Maps.{mips3};

pub mod fields; // the fields of a word
mod maps; // the three maps
mod cop0; // COP0 words
mod instructions; // the instruction of an entry

use maps::{Entry, MAJOR, Major, REGIMM, SPECIAL};

#[derive(Clone, Copy)]
pub enum LoadOp {
    LB,
    LBU,
    LH,
    LHU,
    LW,
    LWU,
    LD,
    LWL,
    LWR,
    LDL,
    LDR,
    LL,
    LLD,
}

#[derive(Clone, Copy)]
pub enum StoreOp {
    SB,
    SH,
    SW,
    SD,
    SWL,
    SWR,
    SDL,
    SDR,
    SC,
    SCD,
}

#[derive(Clone, Copy)]
pub enum ArithmeticOp {
    ADD,
    ADDU,
    SUB,
    SUBU,
    DADD,
    DADDU,
    DSUB,
    DSUBU,
    SLT,
    SLTU,
}

#[derive(Clone, Copy)]
pub enum ArithmeticImmediateOp {
    ADDI,
    ADDIU,
    DADDI,
    DADDIU,
    SLTI,
    SLTIU,
}

#[derive(Clone, Copy)]
pub enum LogicOp {
    AND,
    OR,
    XOR,
    NOR,
}

#[derive(Clone, Copy)]
pub enum LogicImmediateOp {
    ANDI,
    ORI,
    XORI,
    LUI,
}

#[derive(Clone, Copy)]
pub enum ShiftOp {
    SLL,
    SRL,
    SRA,
    DSLL,
    DSRL,
    DSRA,
    DSLL32,
    DSRL32,
    DSRA32,
}

#[derive(Clone, Copy)]
pub enum ShiftVariableOp {
    SLLV,
    SRLV,
    SRAV,
    DSLLV,
    DSRLV,
    DSRAV,
}

#[derive(Clone, Copy)]
pub enum MultiplyOp {
    MULT,
    MULTU,
    DIV,
    DIVU,
    DMULT,
    DMULTU,
    DDIV,
    DDIVU,
}

// MFHI and MFLO write register rd, MTHI and MTLO read register rs.
#[derive(Clone, Copy)]
pub enum HiLoOp {
    MFHI,
    MTHI,
    MFLO,
    MTLO,
}

#[derive(Clone, Copy)]
pub enum BranchOp {
    BEQ,
    BNE,
    BLEZ,
    BGTZ,
    BLTZ,
    BGEZ,
    BLTZAL,
    BGEZAL,
    BEQL,
    BNEL,
    BLEZL,
    BGTZL,
    BLTZL,
    BGEZL,
    BLTZALL,
    BGEZALL,
}

#[derive(Clone, Copy)]
pub enum JumpOp {
    J,
    JAL,
}

#[derive(Clone, Copy)]
pub enum JumpRegisterOp {
    JR,
    JALR,
}

#[derive(Clone, Copy)]
pub enum TrapOp {
    TGE,
    TGEU,
    TLT,
    TLTU,
    TEQ,
    TNE,
}

#[derive(Clone, Copy)]
pub enum TrapImmediateOp {
    TGEI,
    TGEIU,
    TLTI,
    TLTIU,
    TEQI,
    TNEI,
}

#[derive(Clone, Copy)]
pub enum SpecialOp {
    SYSCALL,
    BREAK,
    SYNC,
}

#[derive(Clone, Copy)]
pub enum MoveOp {
    MFC0,
    DMFC0,
    MTC0,
    DMTC0,
}

#[derive(Clone, Copy)]
pub enum TlbOp {
    TLBR,
    TLBWI,
    TLBWR,
    TLBP,
}

// An instruction with the fields that it uses, in the manuals' groups. Numbers of registers are below 32; `offset` and
// `immediate` are the sixteen bits as they stand in the word, `target` the twenty-six.
#[derive(Clone, Copy)]
pub enum Instr {
    Load {
        op: LoadOp,
        base: usize,
        rt: usize,
        offset: u64,
    },
    Store {
        op: StoreOp,
        base: usize,
        rt: usize,
        offset: u64,
    },
    Arithmetic {
        op: ArithmeticOp,
        rs: usize,
        rt: usize,
        rd: usize,
    },
    ArithmeticImmediate {
        op: ArithmeticImmediateOp,
        rs: usize,
        rt: usize,
        immediate: u64,
    },
    Logic {
        op: LogicOp,
        rs: usize,
        rt: usize,
        rd: usize,
    },
    LogicImmediate {
        op: LogicImmediateOp,
        rs: usize,
        rt: usize,
        immediate: u64,
    },
    Shift {
        op: ShiftOp,
        rt: usize,
        rd: usize,
        sa: u64,
    },
    ShiftVariable {
        op: ShiftVariableOp,
        rs: usize,
        rt: usize,
        rd: usize,
    },
    Multiply {
        op: MultiplyOp,
        rs: usize,
        rt: usize,
    },
    HiLo {
        op: HiLoOp,
        rs: usize,
        rd: usize,
    },
    Branch {
        op: BranchOp,
        rs: usize,
        rt: usize,
        offset: u64,
    },
    Jump {
        op: JumpOp,
        target: u64,
    },
    JumpRegister {
        op: JumpRegisterOp,
        rs: usize,
        rd: usize,
    },
    Trap {
        op: TrapOp,
        rs: usize,
        rt: usize,
    },
    TrapImmediate {
        op: TrapImmediateOp,
        rs: usize,
        immediate: u64,
    },
    Special(SpecialOp),
    Cache,
    Move {
        op: MoveOp,
        rt: usize,
        rd: usize,
    },
    Tlb(TlbOp),
    Eret,
}

// Why a word is no instruction: a code of coprocessor 1 or 2; a code of COP0 that is none; or reserved.
#[derive(Clone, Copy)]
pub enum Undecoded {
    Coprocessor(u8),
    ReservedCop0,
    Reserved,
}

// The entry of a word: SPECIAL's by the function, REGIMM's by the rt field, any other its own.
fn entry(w: u32) -> Entry
    ensures { result ≡ D.entry_in mips3 w }
{
    match MAJOR[fields::opcode(w)] {
        Major::Special => SPECIAL[fields::funct(w)],
        Major::Regimm => REGIMM[fields::rt(w)],
        Major::Own(entry) => entry,
    }
}

// What a word is.
#[tactic(auto, unfolding(crate::specs::Decode::decode_by))]
pub fn decode(w: u32) -> Result<Instr, Undecoded>
    ensures { result ≡ D.decode w }
{
    instructions::instruction(entry(w), w)
}
