//! What tools/evidence.py makes: quotes of the nonce `n1` under the key `k1` in the bank SHA-256, over PCR 10 of a list and PCR 16
//! bound to a public key text, `PUB` where nothing else is said; and the lists.

/// `boot_aggregate` and `/bin/sh`.
pub const LIST: &str =
    "10 0ce80743e3295d47fb02766d4972b545be179795 ima-ng sha256:aaaaaaaaaaaaaaaaaaaaaaaaaaaaaaaaaaaaaaaaaaaaaaaaaaaaaaaaaaaaaaaa boot_aggregate\n10 bb3063d25fca3cae71d7566d0c76699a1cf95c1c ima-ng sha256:bbbbbbbbbbbbbbbbbbbbbbbbbbbbbbbbbbbbbbbbbbbbbbbbbbbbbbbbbbbbbbbb /bin/sh\n";

/// Quoted of these two.
pub const QUOTE: &str =
    "r/1RDR4AYACIRERERERERERERERERERERERERERERERERERERERERERERAAJuMQAAAAAAAAPoAAAAAQAAAAABAAAAAAAAAAEAAAABAAsDAAQBACDBUtqZPru2ussVkwWANcPTBbNK+cQxHmIMh3JZgMqmgg==:UJztnWtaE4d9JpXpE65MoPbVOr1yIGqywDAePEvxv6c=:eBAxGP0BxSvzZIn+I8Fj88QCCVFBjWmg/oM4hy46cba2B5Pf5em8yIpeUV4DBa6exXrb5KqUSA78U8ydoi3x2w==";

/// The same after a reboot: of another reset count.
pub const QUOTE_REBOOTED: &str =
    "r/1RDR4AYACIRERERERERERERERERERERERERERERERERERERERERERERAAJuMQAAAAAAAAPoAAAAAgAAAAABAAAAAAAAAAEAAAABAAsDAAQBACDBUtqZPru2ussVkwWANcPTBbNK+cQxHmIMh3JZgMqmgg==:2S4Sy3D8RTCFQTinhBc42PejPLmea0WjvtmpCTxnUJI=:eBAxGP0BxSvzZIn+I8Fj88QCCVFBjWmg/oM4hy46cba2B5Pf5em8yIpeUV4DBa6exXrb5KqUSA78U8ydoi3x2w==";

/// The same as `QUOTE`, bound to `PUC` in place of `PUB`.
pub const OTHER_QUOTE: &str =
    "r/1RDR4AYACIRERERERERERERERERERERERERERERERERERERERERERERAAJuMQAAAAAAAAPoAAAAAQAAAAABAAAAAAAAAAEAAAABAAsDAAQBACCaZiSVHEQmXieEz/4ihl0MD8ohTKkgmEy1siqQY46Jzw==:A7WGliBO/zsIkon8tCQXX9GxZgu937UEJNlOSltnG9o=:eBAxGP0BxSvzZIn+I8Fj88QCCVFBjWmg/oM4hy46cbY1LWr3bwoXl8Y4UP98jVUMW3HCVoCSEX+6IVP12Mmx/A==";

/// What stands behind the two: `/usr/bin/env`.
pub const LIST_LONGER: &str =
    "10 e9b055fb06a23889f23249c75536e118a42a746a ima-ng sha256:cccccccccccccccccccccccccccccccccccccccccccccccccccccccccccccccc /usr/bin/env\n";

/// Quoted of these three.
pub const QUOTE_LONGER: &str =
    "r/1RDR4AYACIRERERERERERERERERERERERERERERERERERERERERERERAAJuMQAAAAAAAAPoAAAAAQAAAAABAAAAAAAAAAEAAAABAAsDAAQBACB+iKR86/DUVybs1KsTZJJj4faZdcPjDMpHlp2DaqO6Kg==:ImMHoojPDAc2vpHVa/fYzHMbPkubVcHBmsF2StPNcqI=:WfVrkdA+eOdGp8oJAMyiusSFgy9E0jwX/w/wmAd+McK2B5Pf5em8yIpeUV4DBa6exXrb5KqUSA78U8ydoi3x2w==";

/// What stands behind the two: `/opt/x`, which the policy does not have.
pub const LIST_UNLISTED: &str =
    "10 769c75093abc5144714669be7610285bbde390b6 ima-ng sha256:dddddddddddddddddddddddddddddddddddddddddddddddddddddddddddddddd /opt/x\n";

/// The two, and `/opt/x` behind them.
pub const WHOLE_LIST_UNLISTED: &str =
    "10 0ce80743e3295d47fb02766d4972b545be179795 ima-ng sha256:aaaaaaaaaaaaaaaaaaaaaaaaaaaaaaaaaaaaaaaaaaaaaaaaaaaaaaaaaaaaaaaa boot_aggregate\n10 bb3063d25fca3cae71d7566d0c76699a1cf95c1c ima-ng sha256:bbbbbbbbbbbbbbbbbbbbbbbbbbbbbbbbbbbbbbbbbbbbbbbbbbbbbbbbbbbbbbbb /bin/sh\n10 769c75093abc5144714669be7610285bbde390b6 ima-ng sha256:dddddddddddddddddddddddddddddddddddddddddddddddddddddddddddddddd /opt/x\n";

/// Quoted of these three.
pub const QUOTE_UNLISTED: &str =
    "r/1RDR4AYACIRERERERERERERERERERERERERERERERERERERERERERERAAJuMQAAAAAAAAPoAAAAAQAAAAABAAAAAAAAAAEAAAABAAsDAAQBACCutJGpIAnCGdxSSIveKcdSEoUSEPnYkHb+lEs1M5VVyw==:ghZlMNg6qHj7rwXMEnz6V1OjpXGBPYmiIAkjXsJBk5Q=:r9qS3EWgg4AMiUo1K6Ab+b7H/YxuuQg1ojltnL7Suhm2B5Pf5em8yIpeUV4DBa6exXrb5KqUSA78U8ydoi3x2w==";

/// Quoted of PCR 16 alone.
pub const QUOTE_IDENTITY: &str =
    "r/1RDR4AYACIRERERERERERERERERERERERERERERERERERERERERERERAAJuMQAAAAAAAAPoAAAAAQAAAAABAAAAAAAAAAEAAAABAAsDAAABACAtpneW73WltPspJjtsz6Pg8ik7AW9/PGbTa9hh4BpQdw==:GiVMgHokqssv7lb02vNCKyk/KhpbuK+WkJsNxOF6QXc=:tgeT3+XpvMiKXlFeAwWunsV62+SqlEgO/FPMnaIt8ds=";

/// A policy that has `boot_aggregate`, `/bin/sh` and `/usr/bin/env`.
pub const POLICY: &str =
    "aaaaaaaaaaaaaaaaaaaaaaaaaaaaaaaaaaaaaaaaaaaaaaaaaaaaaaaaaaaaaaaa  boot_aggregate\nbbbbbbbbbbbbbbbbbbbbbbbbbbbbbbbbbbbbbbbbbbbbbbbbbbbbbbbbbbbbbbbb  /bin/sh\ncccccccccccccccccccccccccccccccccccccccccccccccccccccccccccccccc  /usr/bin/env\n";
