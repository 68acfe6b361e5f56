// The printed table of document 01, section "The sheet".
use crate::Band;

pub const PRINTED: [Band; 16] = [
    Band {
        highest: 1,
        sample: 1,
    },
    Band {
        highest: 8,
        sample: 2,
    },
    Band {
        highest: 15,
        sample: 3,
    },
    Band {
        highest: 25,
        sample: 5,
    },
    Band {
        highest: 50,
        sample: 8,
    },
    Band {
        highest: 90,
        sample: 13,
    },
    Band {
        highest: 150,
        sample: 20,
    },
    Band {
        highest: 280,
        sample: 32,
    },
    Band {
        highest: 500,
        sample: 50,
    },
    Band {
        highest: 1_200,
        sample: 80,
    },
    Band {
        highest: 3_200,
        sample: 125,
    },
    Band {
        highest: 10_000,
        sample: 200,
    },
    Band {
        highest: 35_000,
        sample: 315,
    },
    Band {
        highest: 150_000,
        sample: 500,
    },
    Band {
        highest: 500_000,
        sample: 800,
    },
    Band {
        highest: 1_000_000,
        sample: 1_250,
    },
];
