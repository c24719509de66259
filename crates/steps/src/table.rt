// The paths in use, one number each.
use shape::STEPS;

// How many paths are in use, of every m together.
pub(super) const USED: usize = 43;

// In dictionary order, those of m = 2 first, then those of m = 3, and so on. The steps of a path are the digits of its
// number to base 8, the first step the highest: 0o1243 is the path 1, 2, 4, 3.
pub(super) const PATHS: [u32; USED] = [
    0o12, 0o123, 0o132, 0o1234, 0o1243, 0o1324, 0o1342, 0o1423, 0o1432, 0o2134, 0o2143, 0o12345,
    0o12354, 0o12435, 0o12453, 0o12534, 0o12543, 0o13245, 0o13254, 0o13425, 0o13452, 0o13524,
    0o13542, 0o14235, 0o14253, 0o14325, 0o14352, 0o14523, 0o14532, 0o15234, 0o15243, 0o15324,
    0o15342, 0o15423, 0o15432, 0o21345, 0o21354, 0o21435, 0o21453, 0o21534, 0o21543, 0o23145,
    0o23154,
];

// Where the paths of m = 2, 3, .. begin.
pub(super) const STARTS: [usize; STEPS - 1] = [0, 1, 3, 11];
