// Which instruction each opcode stands for (JVMS 6.5 and 7), by families.
ghost use Rattle.std.specs.Prelude.{◌≡◌, option_map, is_some, ◌+◌};
ghost use Rattle.class_model.specs.Opcodes.{kind_of, elem_of, cond_of, constant_op, slot_op, stack_op, arithmetic_op};
ghost use Rattle.class_model.specs.Opcodes.{bits_op, conversion_op, ending_op, plain_op, local_op, branch_op, field_op};
ghost use Rattle.class_model.specs.Opcodes.{method_op, takes_interface_method, type_op, array_type_of};
ghost use Rattle.class_model.specs.Opcodes.{is_left_out_array_type, is_left_out_local, is_left_out_number};
ghost use Rattle.class_model.specs.Opcodes.{is_left_out_opcode};
ghost use Rattle.class_model.specs.declared.op.Op.TheVariants as op;

use class_model::ArithOp;
use class_model::Cond;
use class_model::ConvOp;
use class_model::Elem;
use class_model::Kind;
use class_model::LogicOp;
use class_model::MemberRef;
use class_model::Num;
use class_model::Op;
use class_model::ShiftOp;
use class_model::opcode::ACONST_NULL;
use class_model::opcode::ALOAD;
use class_model::opcode::ALOAD_3;
use class_model::opcode::ANEWARRAY;
use class_model::opcode::ARETURN;
use class_model::opcode::ARRAYLENGTH;
use class_model::opcode::ASTORE;
use class_model::opcode::ASTORE_3;
use class_model::opcode::ATHROW;
use class_model::opcode::CHECKCAST;
use class_model::opcode::D2F;
use class_model::opcode::DADD;
use class_model::opcode::DALOAD;
use class_model::opcode::DASTORE;
use class_model::opcode::DCMPG;
use class_model::opcode::DCONST_1;
use class_model::opcode::DDIV;
use class_model::opcode::DLOAD;
use class_model::opcode::DLOAD_3;
use class_model::opcode::DMUL;
use class_model::opcode::DNEG;
use class_model::opcode::DREM;
use class_model::opcode::DRETURN;
use class_model::opcode::DSTORE;
use class_model::opcode::DSTORE_3;
use class_model::opcode::DSUB;
use class_model::opcode::DUP;
use class_model::opcode::DUP_X1;
use class_model::opcode::DUP_X2;
use class_model::opcode::DUP2;
use class_model::opcode::DUP2_X1;
use class_model::opcode::DUP2_X2;
use class_model::opcode::FADD;
use class_model::opcode::FALOAD;
use class_model::opcode::FASTORE;
use class_model::opcode::FCMPL;
use class_model::opcode::FCONST_0;
use class_model::opcode::FDIV;
use class_model::opcode::FLOAD;
use class_model::opcode::FLOAD_0;
use class_model::opcode::FMUL;
use class_model::opcode::FNEG;
use class_model::opcode::FREM;
use class_model::opcode::FRETURN;
use class_model::opcode::FSTORE;
use class_model::opcode::FSTORE_0;
use class_model::opcode::FSUB;
use class_model::opcode::GETFIELD;
use class_model::opcode::GETSTATIC;
use class_model::opcode::GOTO;
use class_model::opcode::I2B;
use class_model::opcode::I2C;
use class_model::opcode::I2D;
use class_model::opcode::I2F;
use class_model::opcode::I2L;
use class_model::opcode::I2S;
use class_model::opcode::IADD;
use class_model::opcode::IALOAD;
use class_model::opcode::IAND;
use class_model::opcode::IASTORE;
use class_model::opcode::ICONST_5;
use class_model::opcode::ICONST_M1;
use class_model::opcode::IDIV;
use class_model::opcode::IF_ACMPEQ;
use class_model::opcode::IF_ACMPNE;
use class_model::opcode::IF_ICMPEQ;
use class_model::opcode::IF_ICMPLE;
use class_model::opcode::IFEQ;
use class_model::opcode::IFLE;
use class_model::opcode::IFNONNULL;
use class_model::opcode::IFNULL;
use class_model::opcode::ILOAD;
use class_model::opcode::ILOAD_0;
use class_model::opcode::IMUL;
use class_model::opcode::INEG;
use class_model::opcode::INSTANCEOF;
use class_model::opcode::INVOKESPECIAL;
use class_model::opcode::INVOKESTATIC;
use class_model::opcode::INVOKEVIRTUAL;
use class_model::opcode::IOR;
use class_model::opcode::IREM;
use class_model::opcode::IRETURN;
use class_model::opcode::ISHL;
use class_model::opcode::ISHR;
use class_model::opcode::ISTORE;
use class_model::opcode::ISTORE_0;
use class_model::opcode::ISUB;
use class_model::opcode::IUSHR;
use class_model::opcode::IXOR;
use class_model::opcode::L2F;
use class_model::opcode::L2I;
use class_model::opcode::LADD;
use class_model::opcode::LAND;
use class_model::opcode::LCMP;
use class_model::opcode::LCONST_0;
use class_model::opcode::LCONST_1;
use class_model::opcode::LDIV;
use class_model::opcode::LLOAD;
use class_model::opcode::LMUL;
use class_model::opcode::LNEG;
use class_model::opcode::LOR;
use class_model::opcode::LREM;
use class_model::opcode::LRETURN;
use class_model::opcode::LSHL;
use class_model::opcode::LSHR;
use class_model::opcode::LSTORE;
use class_model::opcode::LSUB;
use class_model::opcode::LUSHR;
use class_model::opcode::LXOR;
use class_model::opcode::MONITORENTER;
use class_model::opcode::MONITOREXIT;
use class_model::opcode::NOP;
use class_model::opcode::POP;
use class_model::opcode::POP2;
use class_model::opcode::PUTFIELD;
use class_model::opcode::PUTSTATIC;
use class_model::opcode::RETURN;
use class_model::opcode::SALOAD;
use class_model::opcode::SASTORE;
use class_model::opcode::SWAP;
use jv_base::Base;
use jv_base::FieldType;
use jv_base::Shared;

// ---- the order in which the standard goes through types and comparisons

// int, long, float, double, reference.
fn kind_of(n: u8) -> Option<Kind>
    ensures { result ≡ kind_of n }
{
    match n {
        0 => Some(Kind::Int),
        1 => Some(Kind::Long),
        4 => Some(Kind::Ref),
        _ => None,
    }
}

// int, long, float, double, reference, byte or boolean, char, short.
fn elem_of(n: u8) -> Option<Elem>
    ensures { result ≡ elem_of n }
{
    match n {
        0 => Some(Elem::Int),
        1 => Some(Elem::Long),
        4 => Some(Elem::Ref),
        5 => Some(Elem::Byte),
        6 => Some(Elem::Char),
        7 => Some(Elem::Short),
        _ => None,
    }
}

// eq, ne, lt, ge, gt, le.
fn cond_of(n: u8) -> Option<Cond>
    ensures { result ≡ cond_of n }
{
    match n {
        0 => Some(Cond::Eq),
        1 => Some(Cond::Ne),
        2 => Some(Cond::Lt),
        3 => Some(Cond::Ge),
        4 => Some(Cond::Gt),
        5 => Some(Cond::Le),
        _ => None,
    }
}

// ---- instructions without operands

fn constant_op(opcode: u8) -> Option<Op>
    ensures { result ≡ constant_op opcode }
{
    match opcode {
        NOP => Some(Op::Nop),
        ACONST_NULL => Some(Op::PushNull),
        ICONST_M1..=ICONST_5 => Some(Op::PushInt(i32::from(opcode) - 3)),
        LCONST_0..=LCONST_1 => Some(Op::PushLong(i64::from(opcode - LCONST_0))),
        _ => None,
    }
}

// The n-th of the loads whose opcode names the slot, four for each type.
fn load_op(n: u8) -> Option<Op>
    ensures { result ≡ slot_op op.Load n }
{
    match n {
        0..=3 => Some(Op::Load(Kind::Int, u16::from(n))),
        4..=7 => Some(Op::Load(Kind::Long, u16::from(n - 4))),
        16..=19 => Some(Op::Load(Kind::Ref, u16::from(n - 16))),
        _ => None,
    }
}

// The n-th of the stores whose opcode names the slot, four for each type.
fn store_op(n: u8) -> Option<Op>
    ensures { result ≡ slot_op op.Store n }
{
    match n {
        0..=3 => Some(Op::Store(Kind::Int, u16::from(n))),
        4..=7 => Some(Op::Store(Kind::Long, u16::from(n - 4))),
        16..=19 => Some(Op::Store(Kind::Ref, u16::from(n - 16))),
        _ => None,
    }
}

fn array_load_op(n: u8) -> Option<Op>
    ensures { result ≡ option_map op.ALoad (elem_of n) }
{
    match elem_of(n) {
        Some(elem) => Some(Op::ALoad(elem)),
        None => None,
    }
}

fn array_store_op(n: u8) -> Option<Op>
    ensures { result ≡ option_map op.AStore (elem_of n) }
{
    match elem_of(n) {
        Some(elem) => Some(Op::AStore(elem)),
        None => None,
    }
}

fn stack_op(opcode: u8) -> Option<Op>
    ensures { result ≡ stack_op opcode }
{
    match opcode {
        POP => Some(Op::Pop),
        POP2 => Some(Op::Pop2),
        DUP => Some(Op::Dup),
        DUP_X1 => Some(Op::DupX1),
        DUP_X2 => Some(Op::DupX2),
        DUP2 => Some(Op::Dup2),
        DUP2_X1 => Some(Op::Dup2X1),
        DUP2_X2 => Some(Op::Dup2X2),
        SWAP => Some(Op::Swap),
        _ => None,
    }
}

fn arithmetic_op(opcode: u8) -> Option<Op>
    ensures { result ≡ arithmetic_op opcode }
{
    match opcode {
        IADD => Some(Op::Arith(ArithOp::Add, Num::Int)),
        LADD => Some(Op::Arith(ArithOp::Add, Num::Long)),
        ISUB => Some(Op::Arith(ArithOp::Sub, Num::Int)),
        LSUB => Some(Op::Arith(ArithOp::Sub, Num::Long)),
        IMUL => Some(Op::Arith(ArithOp::Mul, Num::Int)),
        LMUL => Some(Op::Arith(ArithOp::Mul, Num::Long)),
        IDIV => Some(Op::Arith(ArithOp::Div, Num::Int)),
        LDIV => Some(Op::Arith(ArithOp::Div, Num::Long)),
        IREM => Some(Op::Arith(ArithOp::Rem, Num::Int)),
        LREM => Some(Op::Arith(ArithOp::Rem, Num::Long)),
        INEG => Some(Op::Neg(Num::Int)),
        LNEG => Some(Op::Neg(Num::Long)),
        _ => None,
    }
}

fn bits_op(opcode: u8) -> Option<Op>
    ensures { result ≡ bits_op opcode }
{
    match opcode {
        ISHL => Some(Op::Shift(ShiftOp::Shl, Num::Int)),
        LSHL => Some(Op::Shift(ShiftOp::Shl, Num::Long)),
        ISHR => Some(Op::Shift(ShiftOp::Shr, Num::Int)),
        LSHR => Some(Op::Shift(ShiftOp::Shr, Num::Long)),
        IUSHR => Some(Op::Shift(ShiftOp::Ushr, Num::Int)),
        LUSHR => Some(Op::Shift(ShiftOp::Ushr, Num::Long)),
        IAND => Some(Op::Logic(LogicOp::And, Num::Int)),
        LAND => Some(Op::Logic(LogicOp::And, Num::Long)),
        IOR => Some(Op::Logic(LogicOp::Or, Num::Int)),
        LOR => Some(Op::Logic(LogicOp::Or, Num::Long)),
        IXOR => Some(Op::Logic(LogicOp::Xor, Num::Int)),
        LXOR => Some(Op::Logic(LogicOp::Xor, Num::Long)),
        _ => None,
    }
}

fn conversion_op(opcode: u8) -> Option<Op>
    ensures { result ≡ conversion_op opcode }
{
    match opcode {
        I2L => Some(Op::Conv(ConvOp::I2l)),
        L2I => Some(Op::Conv(ConvOp::L2i)),
        I2B => Some(Op::Conv(ConvOp::I2b)),
        I2C => Some(Op::Conv(ConvOp::I2c)),
        I2S => Some(Op::Conv(ConvOp::I2s)),
        LCMP => Some(Op::LCmp),
        _ => None,
    }
}

fn ending_op(opcode: u8) -> Option<Op>
    ensures { result ≡ ending_op opcode }
{
    match opcode {
        IRETURN => Some(Op::Return(Some(Kind::Int))),
        LRETURN => Some(Op::Return(Some(Kind::Long))),
        ARETURN => Some(Op::Return(Some(Kind::Ref))),
        RETURN => Some(Op::Return(None)),
        ARRAYLENGTH => Some(Op::ArrayLength),
        ATHROW => Some(Op::Throw),
        _ => None,
    }
}

/// The instruction that is its opcode alone.
pub fn plain_op(opcode: u8) -> Option<Op>
    ensures { result ≡ plain_op opcode }
{
    match opcode {
        NOP..=LCONST_1 => constant_op(opcode),
        ILOAD_0..=ALOAD_3 => load_op(opcode - ILOAD_0),
        IALOAD..=SALOAD => array_load_op(opcode - IALOAD),
        ISTORE_0..=ASTORE_3 => store_op(opcode - ISTORE_0),
        IASTORE..=SASTORE => array_store_op(opcode - IASTORE),
        POP..=SWAP => stack_op(opcode),
        IADD..=DNEG => arithmetic_op(opcode),
        ISHL..=LXOR => bits_op(opcode),
        I2L..=LCMP => conversion_op(opcode),
        _ => ending_op(opcode),
    }
}

// ---- instructions with operands

/// The load or store of a slot.
pub fn local_op(opcode: u8, slot: u16) -> Option<Op>
    ensures { result ≡ option_map (λ make. make slot) (local_op opcode) }
{
    match opcode {
        ILOAD..=ALOAD => match kind_of(opcode - ILOAD) {
            Some(kind) => Some(Op::Load(kind, slot)),
            None => None,
        },
        ISTORE..=ASTORE => match kind_of(opcode - ISTORE) {
            Some(kind) => Some(Op::Store(kind, slot)),
            None => None,
        },
        _ => None,
    }
}

/// The branch to a target.
pub fn branch_op(opcode: u8, to: u32) -> Option<Op>
    ensures { result ≡ option_map (λ make. make to) (branch_op opcode) }
{
    match opcode {
        IFEQ..=IFLE => match cond_of(opcode - IFEQ) {
            Some(cond) => Some(Op::IfZero(cond, to)),
            None => None,
        },
        IF_ICMPEQ..=IF_ICMPLE => match cond_of(opcode - IF_ICMPEQ) {
            Some(cond) => Some(Op::IfCmp(cond, to)),
            None => None,
        },
        IF_ACMPEQ => Some(Op::IfRef { eq: true, to }),
        IF_ACMPNE => Some(Op::IfRef { eq: false, to }),
        GOTO => Some(Op::Goto(to)),
        IFNULL => Some(Op::IfNull { null: true, to }),
        IFNONNULL => Some(Op::IfNull { null: false, to }),
        _ => None,
    }
}

/// The instruction on a field.
pub fn field_op(opcode: u8, field: Shared<MemberRef>) -> Option<Op>
    ensures { result ≡ option_map (λ make. make field) (field_op opcode) }
{
    match opcode {
        GETSTATIC => Some(Op::GetStatic(field)),
        PUTSTATIC => Some(Op::PutStatic(field)),
        GETFIELD => Some(Op::GetField(field)),
        PUTFIELD => Some(Op::PutField(field)),
        _ => None,
    }
}

/// The instruction on a method, invokeinterface aside.
pub fn method_op(opcode: u8, method: Shared<MemberRef>) -> Option<Op>
    ensures { result ≡ option_map (λ make. make method) (method_op opcode) }
{
    match opcode {
        INVOKEVIRTUAL => Some(Op::InvokeVirtual(method)),
        INVOKESPECIAL => Some(Op::InvokeSpecial(method)),
        INVOKESTATIC => Some(Op::InvokeStatic(method)),
        _ => None,
    }
}

/// Whether the method that the instruction names may be one of an interface.
pub fn takes_interface_method(opcode: u8) -> bool
    ensures { result ≡ takes_interface_method opcode }
{
    opcode == INVOKESPECIAL || opcode == INVOKESTATIC
}

/// The instruction on a type, new aside.
pub fn type_op(opcode: u8, ty: Shared<FieldType>) -> Option<Op>
    ensures { result ≡ option_map (λ make. make ty) (type_op opcode) }
{
    match opcode {
        ANEWARRAY => Some(Op::ANewArray(ty)),
        CHECKCAST => Some(Op::CheckCast(ty)),
        INSTANCEOF => Some(Op::InstanceOf(ty)),
        _ => None,
    }
}

/// The element type that the operand of newarray tells.
pub fn array_type_of(code: u8) -> Option<Base>
    ensures { result ≡ array_type_of code }
{
    match code {
        4 => Some(Base::Boolean),
        5 => Some(Base::Char),
        8 => Some(Base::Byte),
        9 => Some(Base::Short),
        10 => Some(Base::Int),
        11 => Some(Base::Long),
        _ => None,
    }
}

// ---- which of them an opcode has

/// Whether the opcode is that of a load or a store of a slot.
pub fn is_local(opcode: u8) -> bool
    ensures { result ≡ is_some (local_op opcode) }
{
    matches!(opcode, ILOAD | LLOAD | ALOAD | ISTORE | LSTORE | ASTORE)
}

/// Whether the opcode is that of a branch, goto_w aside.
pub fn is_branch(opcode: u8) -> bool
    ensures { result ≡ is_some (branch_op opcode) }
{
    matches!(opcode, IFEQ..=GOTO | IFNULL | IFNONNULL)
}

/// Whether the opcode is that of an instruction on a field.
pub fn is_on_field(opcode: u8) -> bool
    ensures { result ≡ is_some (field_op opcode) }
{
    matches!(opcode, GETSTATIC..=PUTFIELD)
}

/// Whether the opcode is that of an instruction on a method, invokeinterface aside.
pub fn is_on_method(opcode: u8) -> bool
    ensures { result ≡ is_some (method_op opcode) }
{
    matches!(opcode, INVOKEVIRTUAL..=INVOKESTATIC)
}

/// Whether the opcode is that of an instruction on a type, new aside.
pub fn is_on_type(opcode: u8) -> bool
    ensures { result ≡ is_some (type_op opcode) }
{
    matches!(opcode, ANEWARRAY | CHECKCAST | INSTANCEOF)
}

// ---- what is left out

/// Whether the operand of newarray tells float or double.
pub fn is_left_out_array_type(code: u8) -> bool
    ensures { result ≡ is_left_out_array_type code }
{
    code == 6 || code == 7
}

/// Whether the opcode is that of a load or a store of a float or a double.
pub fn is_left_out_local(opcode: u8) -> bool
    ensures { result ≡ is_left_out_local opcode }
{
    matches!(opcode, FLOAD..=DLOAD | FSTORE..=DSTORE)
}

fn is_left_out_number(opcode: u8) -> bool
    ensures { result ≡ is_left_out_number opcode }
{
    match opcode {
        FCONST_0..=DCONST_1 | FLOAD..=DLOAD | FLOAD_0..=DLOAD_3 | FALOAD..=DALOAD => true,
        FSTORE..=DSTORE | FSTORE_0..=DSTORE_3 | FASTORE..=DASTORE => true,
        FADD..=DADD | FSUB..=DSUB | FMUL..=DMUL | FDIV..=DDIV | FREM..=DREM | FNEG..=DNEG => true,
        I2F..=I2D | L2F..=D2F | FCMPL..=DCMPG | FRETURN..=DRETURN => true,
        _ => false,
    }
}

/// Whether the instruction of this opcode is left out: one on float or double, monitorenter and
/// monitorexit.
pub fn is_left_out_opcode(opcode: u8) -> bool
    ensures { result ≡ is_left_out_opcode opcode }
{
    is_left_out_number(opcode) || matches!(opcode, MONITORENTER..=MONITOREXIT)
}
