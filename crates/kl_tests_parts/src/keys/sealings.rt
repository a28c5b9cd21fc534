//! Secrets sealed and blobs made by Python's `hmac`.

pub struct Sealing {
    pub public: &'static [u8],
    pub ek: &'static [u8],
    pub ak: &'static [u8],
    pub secret: [u8; 32],
    pub sealed: &'static str,
    pub blob: &'static str,
}

pub static SEALINGS: [Sealing; 3] = [
    Sealing {
        public: b"PUB",
        ek: b"e1",
        ak: b"k1",
        secret: *b"0123456789abcdefghijklmnopqrstuv",
        sealed: "52da1187db8041d1d913b124f988cf7e966f68eab329b8483415edc5421f70b2861893d030555ce7c42e5a3ae3cef496bdca1ba733b65c317b22a2c975d13b3d",
        blob: "a11c086d9b246da8a687781cdc779b7a48dba06e7957ae3655db77f4aa44d762c864f73850f26f9877b0889ac8679f1a037f4630a36f78572408dc1c3a2546cf",
    },
    Sealing {
        public: b"",
        ek: b"",
        ak: b"k1",
        secret: [0xff; 32],
        sealed: "18a9bc5460f41c6ff28f0664bd115833334ae8b82271015eb75aa96ad393f61952d6f3a8089757ace18bc9315579ba508ec8a607dadfbc2a7cf77c50e6890842",
        blob: "d66c476e9253f5d0ce7c8aae9e0d7a40de33659cb1a76408644199aa7266c2d0b4a68ceb0f881b3934f314d979b28bd0354294d2e5351c1e867c52aa918d359c",
    },
    Sealing {
        public: &[b'k'; 200],
        ek: b"e1",
        ak: b"",
        secret: [0; 32],
        sealed: "d13f57a79c3aeadffd73eff2088c5d3913b2c3859e0af37398376e434c5f1a0b59fd3aeb20490faaeab670aa8f72966a0e4463327fb34cb48799ba4bab18b754",
        blob: "bcee7dfda550dd9ca4db305a08df394f7f5b73748c8aca9e61075a42b9807b675265b18cf94d3d8ac1123de81f7f7648f51b6e4d23e087149f25f1c254dfbb6a",
    },
];
