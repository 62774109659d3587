// What a frame holds: settings, style, host and content, in the order of its words. The definitions speak of it; the code reads each field
// from its words (src/frame.rt).
use axis::{KineticScrollStyle, WheelSource};
use numbers::{Align, Pos2, Rangef, Rect};

#[derive(Clone, Copy, Debug)]
pub struct Frame {
    pub settings: Settings,
    pub style: Style,
    pub host: Host,
    pub content: Content,
}

// How the scroll area was built.
#[derive(Clone, Copy, Debug)]
pub struct Settings {
    pub direction_enabled: [bool; 2],
    pub auto_shrink: [bool; 2],
    pub max_size: [f32; 2],
    pub min_scrolled_size: [f32; 2],
    pub scroll_bar_visibility: ScrollBarVisibility,
    pub scroll_bar_rect: Option<Rect>,
    // The Rust's offset_x and offset_y.
    pub offset: [Option<f32>; 2],
    pub scroll_bar: bool,
    pub drag: DragScroll,
    pub mouse_wheel: bool,
    pub wheel_scroll_multiplier: [f32; 2],
    pub stick_to_end: [bool; 2],
    pub animated: bool,
}

#[derive(Clone, Copy, Debug, PartialEq, Eq)]
pub enum ScrollBarVisibility {
    AlwaysHidden,
    VisibleWhenNeeded,
    AlwaysVisible,
}

#[derive(Clone, Copy, Debug, PartialEq, Eq)]
pub enum DragScroll {
    Never,
    OnTouch,
    Always,
}

// How bars and motion look.
#[derive(Clone, Copy, Debug)]
pub struct Style {
    pub floating: bool,
    pub allocated_width: f32,
    pub bar_width: f32,
    pub bar_inner_margin: f32,
    pub bar_outer_margin: f32,
    pub floating_width: f32,
    pub handle_min_length: f32,
    pub item_spacing: [f32; 2],
    pub always_scroll_the_only_direction: bool,
    pub kinetic: KineticScrollStyle,
}

// What the Rust reads from Ui, Context and Response.
#[derive(Clone, Copy, Debug)]
pub struct Host {
    pub available: Rect,
    pub clip: Rect,
    pub enabled: bool,
    pub touch: bool,
    pub scrolling_ancestor: bool,
    pub stable_dt: f32,
    pub time: f64,
    pub pointer: Option<Pos2>,
    pub pointer_delta: [f32; 2],
    pub pointer_velocity: [f32; 2],
    pub dragged: bool,
    pub drag_stopped: bool,
    pub source: Option<WheelSource>,
    pub smooth_scroll_delta: [f32; 2],
    pub bar_factors: [f32; 2],
    // In force where a bar is to show in this frame and its factor is not above 0.
    pub opening_factors: [f32; 2],
    pub hover_factors: [f32; 2],
    pub bars: [BarResponse; 2],
}

// What the pointer does on one axis's bar.
#[derive(Clone, Copy, Debug, PartialEq)]
pub struct BarResponse {
    pub hovered: bool,
    pub dragged: bool,
    pub press: Option<Pos2>,
}

// What was put into the area in this frame.
#[derive(Clone, Copy, Debug)]
pub struct Content {
    pub size: [f32; 2],
    pub min: [f32; 2],
    pub scroll_delta: [f32; 2],
    pub animation: ScrollAnimation,
    pub targets: [Option<ScrollTarget>; 2],
}

#[derive(Clone, Copy, Debug, PartialEq)]
pub struct ScrollAnimation {
    pub points_per_second: f32,
    pub duration: Rangef,
}

#[derive(Clone, Copy, Debug, PartialEq)]
pub struct ScrollTarget {
    pub range: Rangef,
    pub align: Option<Align>,
    pub animation: ScrollAnimation,
}
