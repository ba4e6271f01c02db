/// The number after this one in a fixed sequence that looks random: the multiplier and the increment
/// are those of Knuth's MMIX, and the high bits are the ones to use.
pub fn after(seed: u64) -> u64 {
    seed.wrapping_mul(6_364_136_223_846_793_005)
        .wrapping_add(1_442_695_040_888_963_407)
}

/// At how many binary digits two values differ, looked at one by one.
pub fn differences(one: u16, other: u16) -> usize {
    (0..16u32)
        .filter(|place| (one >> *place) % 2 != (other >> *place) % 2)
        .count()
}
