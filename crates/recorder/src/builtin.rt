// The card that the program carries: the sites (table 1: site, quota) and their picks (table 2: site, peak).
pub(crate) const SITES_AND_PICKS: [u8; 102] = [
    47, 0, 1, 0, 1, 2, // table 1, two columns
    0, 4, 0, 0, 0, 2, 0, 0, 0, // 4, 2
    0, 4, 0, 0, 0, 2, 0, 0, 0, // 4, 2
    0, 7, 0, 0, 0, 1, 0, 0, 0, // 7, 1
    0, 9, 0, 0, 0, 0, 0, 0, 0, // 9, 0
    1, 0, 0, 0, 0, 0, 0, 0, 0, // absent, 0
    47, 0, 1, 0, 2, 2, // table 2, two columns
    0, 4, 0, 0, 0, 15, 0, 0, 0, // 4, 15
    0, 4, 0, 0, 0, 253, 255, 255, 255, // 4, -3
    2, 7, 0, 0, 0, 0, 0, 0, 0, // 7, absent
    0, 7, 0, 0, 0, 8, 0, 0, 0, // 7, 8
    0, 5, 0, 0, 0, 2, 0, 0, 0, // 5, 2
];
