// What a run is asked for, and the record that stands for it between calls.

// From simulation_config.rs and output_config.rs.
#[derive(Clone, Copy)]
pub struct Settings {
    pub amplitude: f64,
    pub level: u32,
    pub max_time: f64,
    pub interval: f64,
    pub dx_level: u32,
    pub skip: bool,
}

// What begin answers, and what each advance takes and returns.
#[derive(Clone, Copy)]
pub struct Record {
    pub settings: Settings,
    pub time: f64,
    pub steps: u32,
    pub broken: bool,
}
