ghost use Rattle.std.specs.Prelude.{◌^◌, ◌<◌, ◌≤◌, negsuc, ◌≤ℤ◌};

use crate::plain::differences;
use ball_walk::Ball;
use std::alloc::{AllocError, Global};
use std::process::Abort;
use std::test::Fail;

// The values of a width within a radius, with their distances, sorted: all values are looked at.
fn sorted_scan(
    alloc: Global,
    value: u16,
    width: u32,
    radius: i32,
) -> Result<Vec<(usize, u16)>, AllocError>
    requires width { width ≤ 12 }
    requires radius { negsuc 0 ≤ℤ radius }
{
    let units = (i64::from(radius) + 1) as usize;
    let mut near = Vec::new(alloc);
    for other in 0..1u16 << width {
        let apart = differences(value, other);
        if apart < units {
            near.push((apart, other))?;
        }
    }
    near.sort_unstable();
    Ok(near)
}

// Walks a ball beside the scan of all values.
fn compare<R: Abort>(
    rt: &R,
    alloc: Global,
    value: u16,
    width: u32,
    radius: i32,
) -> Result<(), AllocError>
    requires some_width { 0 < width }
    requires width { width ≤ 12 }
    requires value { value < 2 ^ width }
    requires radius { negsuc 0 ≤ℤ radius }
{
    let want = sorted_scan(alloc, value, width, radius)?;
    let mut ball = Ball::new(value, width, radius);
    for pair in &want {
        let is_next = ball.next() == Some(pair.1);
        assert!(rt; is_next, "{value} {width} {radius}");
    }
    let has_ended = ball.next().is_none() && ball.next().is_none();
    assert!(rt; has_ended, "{value} {width} {radius}");
    Ok(())
}

// Whether the ball round 10 with two bits has these values in this order.
fn is_ball(radius: i32, want: &[u16]) -> bool
    requires radius { negsuc 0 ≤ℤ radius }
{
    let mut ball = Ball::new(0b10, 2, radius);
    for value in want {
        if ball.next() != Some(*value) {
            return false;
        }
    }
    ball.next().is_none()
}

#[test]
fn a_ball_comes_by_distance_and_then_by_value(rt: HostRuntime) {
    assert!(rt; is_ball(-1, &[]));
    assert!(rt; is_ball(0, &[2]));
    assert!(rt; is_ball(1, &[2, 0, 3]));
    assert!(rt; is_ball(2, &[2, 0, 3, 1]));
    assert!(rt; is_ball(9, &[2, 0, 3, 1]));
}

static PATTERNS: [u16; 4] = [0, 1, 0b1010_0101_1010, 0b1111_1111_1111];

#[test]
fn a_ball_has_what_a_scan_of_all_values_has(rt: HostRuntime) -> Result<(), Fail> {
    for width in 1..13u32 {
        for &pattern in &PATTERNS {
            let value = pattern % (1 << width);
            for units in 0..16u32 {
                compare(&rt, rt.alloc(), value, width, units as i32 - 1)?;
            }
        }
    }
    Ok(())
}
