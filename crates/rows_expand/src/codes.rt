// The codes of small programs.
use crate::sources::code_of;
use sil_micro::{Op, Target};
use std::test::Fail;

const SOURCE: &[u8] = b" MOVD X,Y\n INCRA X,1\n ENDEX X\nX DESCR\nY DESCR 1\n END\n";

#[test]
fn each_statement_begins_at_its_entry(rt: HostRuntime) -> Result<(), Fail> {
    let code = code_of(rt.alloc(), SOURCE)?;
    assert_eq!(rt;
        (code.statements(), code.static_cells(), code.formats().len()),
        (3, 2, 0)
    );
    let mut begun = 0;
    for op in code.ops() {
        if let Op::Begin { statement } = *op {
            assert_eq!(rt; statement, begun);
            begun = u32::saturating_add(begun, 1);
        }
    }
    assert_eq!(rt; begun, 3);
    for statement in 0..3_u32 {
        let Some(entry) = code.entry(statement) else {
            return Err(Fail::new("an entry"));
        };
        assert_eq!(rt;
            code.ops().get(entry as usize),
            Some(&Op::Begin { statement })
        );
        assert_eq!(rt; code.returns(statement), None);
    }
    assert_eq!(rt; code.entry(3), None);
    Ok(())
}

const CHOICES: &[u8] =
    b" ACOMP X,Y,L1,,L2\nL1 AEQLC X,3,,L1\nL2 SUM X,X,Y,,L1\n ENDEX X\nX DESCR\nY DESCR 1\n END\n";

/// Where the jumps of these statements lead: of ACOMP where it is greater, where it is less and where
/// it is equal, of AEQLC where it is unequal and where it is equal, and of SUM where the sum is too
/// great, where it is too small and where it is held.
const LEADS: [u32; 8] = [1, 2, 1, 2, 1, 3, 3, 1];

/// The statement that an operation jumps to.
fn led(op: Op) -> Option<u32> {
    match op {
        Op::Jump {
            to: Target::Statement(statement),
        } => Some(statement),
        Op::JumpIf {
            to: Target::Statement(statement),
            ..
        } => Some(statement),
        _ => None,
    }
}

#[test]
fn a_null_location_leads_to_the_next_statement(rt: HostRuntime) -> Result<(), Fail> {
    let code = code_of(rt.alloc(), CHOICES)?;
    let mut met = 0_usize;
    for op in code.ops() {
        if let Some(statement) = led(*op) {
            assert_eq!(rt; LEADS.get(met), Some(&statement));
            met = usize::saturating_add(met, 1);
        }
    }
    assert_eq!(rt; met, LEADS.len());
    Ok(())
}
