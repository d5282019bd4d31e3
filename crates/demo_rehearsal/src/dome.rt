// The dome of the rehearsal: rings of 12, 8 and 3 at elevations 0°, 30° and 60°, one speaker at the zenith, and an LFE.
use layout_new::NewPanner;
use refusals::Refusal;
use session_open::Opened;

// Right, up and back, in units of the dome's radius.
// Origin: cos(el) * sin(az), sin(el), -cos(el) * cos(az), each rounded once to 32 bits.
const SPEAKERS: [[f32; 3]; 25] = [
    // elevation 0°, azimuths 0° to 330° in steps of 30°: slots 0 to 11
    [0.0, 0.0, -1.0],
    [0.5, 0.0, -0.8660254],
    [0.8660254, 0.0, -0.5],
    [1.0, 0.0, 0.0],
    [0.8660254, 0.0, 0.5],
    [0.5, 0.0, 0.8660254],
    [0.0, 0.0, 1.0],
    [-0.5, 0.0, 0.8660254],
    [-0.8660254, 0.0, 0.5],
    [-1.0, 0.0, 0.0],
    [-0.8660254, 0.0, -0.5],
    [-0.5, 0.0, -0.8660254],
    // elevation 30°, azimuths 22.5° to 337.5° in steps of 45°: slots 12 to 19
    [0.33141357, 0.5, -0.8001031],
    [0.8001031, 0.5, -0.33141357],
    [0.8001031, 0.5, 0.33141357],
    [0.33141357, 0.5, 0.8001031],
    [-0.33141357, 0.5, 0.8001031],
    [-0.8001031, 0.5, 0.33141357],
    [-0.8001031, 0.5, -0.33141357],
    [-0.33141357, 0.5, -0.8001031],
    // elevation 60°, azimuths 0°, 120° and 240°: slots 20 to 22
    [0.0, 0.8660254, -0.5],
    [0.4330127, 0.8660254, 0.25],
    [-0.4330127, 0.8660254, 0.25],
    // the zenith: slot 23
    [0.0, 1.0, 0.0],
    // the LFE, azimuth 0°, elevation -30°: slot 24
    [0.0, -0.5, -0.8660254],
];

// The slot that no panned signal reaches. Origin: the last of SPEAKERS.
const LFE: [usize; 1] = [24];

pub fn new() -> Result<NewPanner, Refusal> {
    layout_new::new(SPEAKERS.as_flattened(), &LFE)
}

pub fn open(sources: usize) -> Result<Opened, Refusal> {
    session_open::open(SPEAKERS.as_flattened(), &LFE, sources)
}

// Position numbers of 41 speakers.
const ZEROS: [f32; 123] = [0.0; 123];

// At the first n of these, each of them 0. Not by a const parameter: an array of N numbers owes that it fits into memory.
pub fn open_zeros(n: usize) -> Result<Opened, Refusal> {
    session_open::open(&ZEROS[..n.min(ZEROS.len())], &LFE, 2)
}
