use crate::{pick, picks_by_weight};

#[test]
fn a_draw_picks_by_cumulative_weight(rt: HostRuntime) {
    for draw in [0, 1, 2, 17, u64::MAX] {
        assert_eq!(rt; pick(&[(0, 0), (1, 1)], draw), 1, "at {draw}");
    }
    assert_eq!(rt; pick(&[(0, 1), (1, 3)], 4), 0);
    assert_eq!(rt; pick(&[(0, 1), (1, 3)], 5), 1);
    assert_eq!(rt; pick(&[(7, 65535), (8, 0), (9, 65535)], 65535), 9);
    picks_by_weight();
}
