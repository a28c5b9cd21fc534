use crate::common::agent_of;
use kl_shares::*;
use std::test::*;

/// The tag of `a1` under 32 bytes 0x33, by Python's `hmac`.
const TAG: &str =
    "dab222c59b13bd38e4f38cec0088fe647ad2abc6eb39fe02b57aa0befdced9a36ce0ecee92111ee90c735b6dbac07dc6";

/// The same with another last digit.
const OTHER: &str =
    "dab222c59b13bd38e4f38cec0088fe647ad2abc6eb39fe02b57aa0befdced9a36ce0ecee92111ee90c735b6dbac07dc7";

#[test]
fn a_key_opens_by_both_shares_and_the_tag_under_it(rt: HostRuntime) -> Result<(), Fail> {
    split_keys();
    let id = agent_of("a1")?;
    let (key, v) = ([0x33; 32], [0x22; 32]);
    let u = split(&key, &v);
    assert!(rt; u == [0x11; 32] && join(&u, &v) == key);
    assert!(rt; opens(&u, &v, &id, TAG) == Some(key));
    assert!(rt; opens(&u, &v, &id, OTHER).is_none() && opens(&u, &u, &id, TAG).is_none());
    Ok(())
}
