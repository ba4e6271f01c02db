ghost use Rattle.std.specs.Prelude.{◌≡◌, ◌≤◌};
ghost use Rattle.ball_walk.specs.Balls.{value_distance};

/// At how many binary digits two values differ.
pub fn value_distance(value: u16, other: u16) -> u32
    ensures distance { result ≡ value_distance value other }
    ensures few { result ≤ 16 }
{
    (value ^ other).count_ones()
}
