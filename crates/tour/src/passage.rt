// The calls of the tour, in the order in which a signaller and a fitter would see them.
use rules::detection::TrackCall;

// Road 1 at A and road 1 at B, as sections.
pub const ROAD_A: u32 = 17;

pub const ROAD_B: u32 = 21;

// The axles of train 101, and of a train that is not there.
const AXLES: u32 = 8;

const OTHER_AXLES: u32 = 12;

#[derive(Clone, Copy, PartialEq, Eq, Debug)]
pub struct Step {
    pub note: &'static str,
    pub call: TrackCall,
}

pub const PASSAGE: [Step; 18] = [
    Step {
        note: "Train 101, 8 axles, is put on in road 1 at A",
        call: TrackCall::Enter {
            section: ROAD_A,
            axles: AXLES,
        },
    },
    Step {
        note: "Its front passes the starter into block 1",
        call: TrackCall::Enter {
            section: 1,
            axles: AXLES,
        },
    },
    Step {
        note: "Its rear leaves the road",
        call: TrackCall::Leave {
            section: ROAD_A,
            axles: AXLES,
        },
    },
    Step {
        note: "Its front enters block 2: the train holds two blocks",
        call: TrackCall::Enter {
            section: 2,
            axles: AXLES,
        },
    },
    Step {
        note: "Its rear leaves block 1",
        call: TrackCall::Leave {
            section: 1,
            axles: AXLES,
        },
    },
    Step {
        note: "The detection of block 2 fails under the train",
        call: TrackCall::Fail { section: 2 },
    },
    Step {
        note: "A second report of the same failure",
        call: TrackCall::Fail { section: 2 },
    },
    Step {
        note: "The fitter mends it with the train still there: it must not read vacant",
        call: TrackCall::Mend { section: 2 },
    },
    Step {
        note: "He asks what it reads now",
        call: TrackCall::State { section: 2 },
    },
    Step {
        note: "Another train of 12 axles is reported entering block 2",
        call: TrackCall::Enter {
            section: 2,
            axles: OTHER_AXLES,
        },
    },
    Step {
        note: "The front of 101 enters block 3",
        call: TrackCall::Enter {
            section: 3,
            axles: AXLES,
        },
    },
    Step {
        note: "Its rear leaves block 2",
        call: TrackCall::Leave {
            section: 2,
            axles: AXLES,
        },
    },
    Step {
        note: "A leaving of block 1 is reported, where nothing stands",
        call: TrackCall::Leave {
            section: 1,
            axles: AXLES,
        },
    },
    Step {
        note: "The front of 101 enters road 1 at B",
        call: TrackCall::Enter {
            section: ROAD_B,
            axles: AXLES,
        },
    },
    Step {
        note: "Its rear leaves block 3: the train is wholly in",
        call: TrackCall::Leave {
            section: 3,
            axles: AXLES,
        },
    },
    Step {
        note: "A section that no track has is asked for",
        call: TrackCall::State { section: 25 },
    },
    Step {
        note: "A leaving of road 1 at B is reported with 12 axles: a circuit cannot tell, the counter can",
        call: TrackCall::Leave {
            section: ROAD_B,
            axles: OTHER_AXLES,
        },
    },
    Step {
        note: "Train 101 is withdrawn at B: the circuit has lost it already",
        call: TrackCall::Leave {
            section: ROAD_B,
            axles: AXLES,
        },
    },
];
