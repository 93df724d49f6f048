//! Small programmes whose answers were worked out by hand.

use pack_programme::Programme;
use std::test::Fail;
use tables::UNIT;

/// Whether a number is a fraction of UNIT, but for what rounding takes.
fn is_near(number: i64, over: i64, under: i64) -> bool {
    let wanted = UNIT.saturating_mul(over).checked_div(under).unwrap_or(0);
    number.saturating_sub(wanted).saturating_abs() < 1 << 10
}

/// Adds a row of two variables: `a` of the first and `b` of the second are at most `c`.
fn add_row_of_two(programme: &mut Programme, a: i64, b: i64, c: i64, tag: usize) {
    programme.clear_draft();
    programme.put(0, a.saturating_mul(UNIT));
    programme.put(1, b.saturating_mul(UNIT));
    programme.add_row(c.saturating_mul(UNIT), tag);
}

#[test]
fn rows_come_after_a_solve(rt: HostRuntime) -> Result<(), Fail> {
    let mut programme = Programme::new(rt.alloc(), 2, 4)?;
    programme.begin(2, 2);
    add_row_of_two(&mut programme, 1, 2, 4, 10);
    add_row_of_two(&mut programme, 3, 1, 6, 11);
    // both bind
    assert!(rt; programme.solve());
    assert!(rt; is_near(programme.value(), 14, 5));
    assert!(rt; is_near(programme.answer(0), 8, 5));
    assert!(rt; is_near(programme.answer(1), 6, 5));
    // the last one binds, and one more
    add_row_of_two(&mut programme, 1, -1, 1, 12);
    add_row_of_two(&mut programme, 1, 1, 2, 13);
    assert!(rt; !programme.has_room());
    assert!(rt; programme.solve());
    assert!(rt; is_near(programme.value(), 2, 1));
    assert!(rt; is_near(programme.slack(3), 0, 1));
    Ok(())
}

#[test]
fn rows_of_most_slack_go(rt: HostRuntime) -> Result<(), Fail> {
    let mut programme = Programme::new(rt.alloc(), 2, 9)?;
    programme.begin(2, 1);
    // the second variable costs nothing, and the first one may be as great as it
    add_row_of_two(&mut programme, 1, -1, 0, 20);
    assert!(rt; !programme.solve());
    add_row_of_two(&mut programme, 1, 1, 9, 21);
    add_row_of_two(&mut programme, 1, 0, 5, 22);
    add_row_of_two(&mut programme, 0, 1, 2, 23);
    // 2 and 2: of the third row 3 are left, of the second one 5
    assert!(rt; programme.solve());
    assert!(rt; is_near(programme.value(), 2, 1));
    assert!(rt; is_near(programme.slack(1), 5, 1));
    programme.drop_slack(3, UNIT);
    assert_eq!(rt; programme.rows(), 3);
    assert_eq!(rt; programme.tag(1), 23);
    programme.drop_slack(0, UNIT);
    assert_eq!(rt; programme.rows(), 2);
    // the two that bind are left, and go on
    add_row_of_two(&mut programme, 2, 0, 3, 24);
    assert!(rt; programme.solve());
    assert!(rt; is_near(programme.value(), 3, 2));
    assert!(rt; programme.work() > 0);
    Ok(())
}
