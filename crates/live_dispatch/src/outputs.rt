/// Where a run's report and its notices go.
#[derive(Drop)]
pub struct Outputs<K, N: Drop> {
    pub sink: K,
    pub notifiers: Vec<N>,
}
