// Texture, fog, lights and lookat, and the change between microcodes.
ghost use Rattle.std.specs.Prelude.{◌≡◌};
ghost use Rattle.decide.specs.Lights.{light_number};
ghost use Rattle.stage.specs.Plan.{outcome, carry, nothing};
ghost use Rattle.stage.specs.Lights.{texture_plan, fog_plan, light_in, axis_in, number_plan, light_plan, lookat_plan, microcode_number, microcode_plan};

use crate::{Answer, Answered, Lights, Lookat, State, Texture};
use layout::records::Light;

// The microcodes between which a caller may change.
#[derive(Clone, Copy)]
pub enum Microcode {
    F3dex2,
    F3dex2NoN,
}

// The number by which a state holds its microcode.
impl From<Microcode> for u8 {
    ghost from_gives = { λ to n. n ≡ microcode_number to };

    fn from(to: Microcode) -> u8 {
        match to {
            Microcode::F3dex2 => 0,
            Microcode::F3dex2NoN => 1,
        }
    }
}

// The lights with the light x in a slot. A slot from 8 on stores nothing.
fn with_light(l: Lights, slot: u32, x: Light) -> Lights
    ensures { result ≡ light_in l slot x }
{
    let mut lights = l;
    let direction = x.direction;
    let colour = x.colour;
    let mut directions = l.directions;
    let mut colours = l.colours;
    decide::lights::put_slot(&mut directions, 8, slot, &direction);
    decide::lights::put_slot(&mut colours, 8, slot, &colour);
    lights.directions = directions;
    lights.colours = colours;
    lights
}

// The lookat axes with one in a slot. A slot from 2 on stores nothing.
fn with_axis(l: Lookat, slot: u32, direction: [f32; 3]) -> Lookat
    ensures { result ≡ axis_in l slot direction }
{
    let mut lookat = l;
    let mut axes = l.axes;
    decide::lights::put_slot(&mut axes, 2, slot, &direction);
    lookat.axes = axes;
    lookat
}

impl State {
    // Texture (8): the five numbers as given.
    pub fn set_texture(mut self, tile: u8, level: u8, on: bool, sc: u16, tc: u16) -> Answered
        ensures { outcome result tt ≡ carry nothing (texture_plan self tile level on sc tc) self tt }
    {
        let mut answer = Answer::BadState;
        if self.sound() {
            let t = Texture {
                tile,
                level,
                on,
                sc,
                tc,
            };
            self.texture = t;
            answer = Answer::Done;
        }
        Answered {
            state: self,
            answer,
        }
    }

    // Fog (8): multiplier and offset.
    pub fn set_fog(mut self, multiplier: i16, offset: i16) -> Answered
        ensures { outcome result tt ≡ carry nothing (fog_plan self multiplier offset) self tt }
    {
        let mut answer = Answer::BadState;
        if self.sound() {
            self.fogmul = multiplier;
            self.fogoff = offset;
            answer = Answer::Done;
        }
        Answered {
            state: self,
            answer,
        }
    }

    // Number of lights (9), told in bytes, 24 a light.
    pub fn set_num_lights(mut self, bytes: u32) -> Answered
        ensures { outcome result tt ≡ carry nothing (number_plan self (light_number bytes)) self tt }
    {
        let mut answer = Answer::BadState;
        if self.sound() {
            let n = decide::lights::light_number(bytes);
            self.lights.number = n;
            self.lights.changed = true;
            answer = Answer::Done;
        }
        Answered {
            state: self,
            answer,
        }
    }

    // Light (9): slot = number is the ambient colour, 3 bytes; else a slot's direction and colour, 11 bytes. A slot from 8 on
    // stores nothing.
    pub fn set_light(mut self, slot: u32, data: &[u8], at: usize) -> Answered
        ensures { outcome result tt ≡ carry nothing (light_plan self slot «data».now at) self tt }
    {
        let ambient = slot == self.lights.number;
        let need = if ambient { 3 } else { 11 };
        let answer = match self.reads(data.len(), at, need) {
            Err(refusal) => refusal,
            Ok(()) => {
                let mut l = self.lights;
                if ambient {
                    let colour = layout::colour(data, at);
                    l.ambient = colour;
                } else {
                    l = with_light(l, slot, layout::light(data, at));
                }
                l.changed = true;
                self.lights = l;
                Answer::Done
            }
        };
        Answered {
            state: self,
            answer,
        }
    }

    // Lookat (9): 11 bytes, of which the direction. A slot from 2 on stores nothing.
    pub fn set_lookat(mut self, slot: u32, data: &[u8], at: usize) -> Answered
        ensures { outcome result tt ≡ carry nothing (lookat_plan self slot «data».now at) self tt }
    {
        let answer = match self.reads(data.len(), at, 11) {
            Err(refusal) => refusal,
            Ok(()) => {
                let mut l = with_axis(self.lookat, slot, layout::direction(data, at + 8));
                l.changed = true;
                self.lookat = l;
                Answer::Done
            }
        };
        Answered {
            state: self,
            answer,
        }
    }

    // Microcode change (10): slots unloaded, the matrix undefined; matrices, tables and slots' rows stay.
    pub fn switch_microcode(mut self, to: Microcode) -> Answered
        ensures { outcome result tt ≡ carry nothing (microcode_plan self to) self tt }
    {
        let mut answer = Answer::BadState;
        if self.sound() {
            let n = u8::from(to);
            let unmarked = [false; 256];
            self.microcode = n;
            self.defined = false;
            self.drawn = unmarked;
            self.z = [0.0; 256];
            self.loaded = unmarked;
            self.coded = unmarked;
            self.code = [0; 256];
            self.deep = unmarked;
            answer = Answer::Done;
        }
        Answered {
            state: self,
            answer,
        }
    }
}
