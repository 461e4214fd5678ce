// Whether a session is live at an endpoint. A value and no type of its own: every call may be made in either phase.
#[derive(Clone, Copy)]
pub enum Phase {
    Idle,
    Live,
}
