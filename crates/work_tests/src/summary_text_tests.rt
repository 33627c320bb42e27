use sel_algebra::Class;
use std::alloc::{AllocError, Global};
use std::test::Fail;
use summary_text::{Summary, write_summary};

/// A summary of three constraints and three queries, written after other bytes.
fn written(alloc: Global) -> Result<Vec<u8>, AllocError> {
    let mut summary = Summary::new(alloc);
    summary.add_constraint(alloc, 2500000)?;
    summary.add_constraint(alloc, 0)?;
    summary.add_constraint(alloc, 7)?;
    summary.add_class(Class::Quadratic);
    summary.add_class(Class::Constant);
    summary.add_class(Class::Quadratic);
    let mut out = b"before\n".to_vec(alloc)?;
    write_summary(alloc, &mut out, &summary)?;
    Ok(out)
}

#[test]
fn a_summary_has_a_line_for_each_constraint_and_class(rt: HostRuntime) -> Result<(), Fail> {
    let out = written(rt.alloc())?;
    let lines: &[u8] =
        b"before\nconstraint 0 2500000\nconstraint 1 0\nconstraint 2 7\nclass constant 1\nclass linear 0\nclass quadratic 2\n";
    assert_eq!(rt; out.as_slice(), lines);
    Ok(())
}
