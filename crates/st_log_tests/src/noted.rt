//! A device that notes the changes that are made through it, and fails at one of its calls.
ghost use Rattle.std.specs.Prelude.{◌≡◌, ◌≤◌, ℕ, List};

use st_log::device::{Device, DeviceError};
use std::alloc::{AllocError, Global};

/// What was done to a device.
#[derive(Drop)]
pub enum Step {
    Write { at: usize, bytes: Vec<u8> },
    Truncate { len: usize },
    Sync,
}

/// A device, and the changes so far.
#[derive(Drop)]
pub struct Noted<D: Device> {
    alloc: Global,
    device: D,
    pub steps: Vec<Step>,
    /// After this many calls one fails and does nothing.
    until_failure: u32,
    last_error: Option<DeviceError>,
}

impl<D: Device> Noted<D> {
    pub fn new(alloc: Global, device: D, until_failure: u32) -> Noted<D> {
        Noted {
            alloc,
            device,
            steps: Vec::new(alloc),
            until_failure,
            last_error: None,
        }
    }
}

/// Counts a call down, and says whether it is the one that fails.
fn is_failing(left: &mut u32) -> bool {
    if *left == 0 {
        *left = u32::MAX;
        return true;
    }
    if *left < u32::MAX {
        *left -= 1;
    }
    false
}

/// Whether a call fails before it does anything: it is its turn, or its step finds no room.
fn note(
    left: &mut u32,
    steps: &mut Vec<Step>,
    step: Result<Step, AllocError>,
) -> Result<(), DeviceError> {
    let Ok(step) = step else {
        return Err(DeviceError::NoMemory);
    };
    if steps.push(step).is_err() {
        return Err(DeviceError::NoMemory);
    }
    if is_failing(left) {
        return Err(DeviceError::Failed);
    }
    Ok(())
}

fn write_step(alloc: Global, at: usize, bytes: &[u8]) -> Result<Step, AllocError> {
    Ok(Step::Write {
        at,
        bytes: bytes.to_vec(alloc)?,
    })
}

impl<D: Device> Device for Noted<D> {
    ghost contents = { λ n. D.contents n.device };

    ghost may_leave = { λ n c. D.may_leave n.device c };

    ghost moment = { λ n. D.moment n.device };

    ghost left_since = { λ n t c. D.left_since n.device t c };

    ghost last_error = { λ n. n.last_error };

    ghost counts_now = { λ n t c le now. D.counts_now n.device t c le now };

    ghost only_now = { λ n c left. D.only_now n.device c left };

    fn read(&mut self, alloc: Global) -> Result<Vec<u8>, DeviceError> {
        if is_failing(&mut self.until_failure) {
            self.last_error = Some(DeviceError::Failed);
            return Err(DeviceError::Failed);
        }
        match self.device.read(alloc) {
            Ok(bytes) => {
                self.last_error = None;
                Ok(bytes)
            }
            Err(error) => {
                self.last_error = Some(error);
                Err(error)
            }
        }
    }

    fn write_at(&mut self, at: usize, bytes: &[u8]) -> Result<(), DeviceError> {
        let step = write_step(self.alloc, at, bytes);
        if let Err(error) = note(&mut self.until_failure, &mut self.steps, step) {
            self.last_error = Some(error);
            return Err(error);
        }
        match self.device.write_at(at, bytes) {
            Ok(()) => {
                self.last_error = None;
                Ok(())
            }
            Err(error) => {
                self.last_error = Some(error);
                Err(error)
            }
        }
    }

    fn truncate(&mut self, len: usize) -> Result<(), DeviceError> {
        let step = Ok(Step::Truncate { len });
        if let Err(error) = note(&mut self.until_failure, &mut self.steps, step) {
            self.last_error = Some(error);
            return Err(error);
        }
        match self.device.truncate(len) {
            Ok(()) => {
                self.last_error = None;
                Ok(())
            }
            Err(error) => {
                self.last_error = Some(error);
                Err(error)
            }
        }
    }

    fn sync(&mut self) -> Result<(), DeviceError> {
        if let Err(error) = note(&mut self.until_failure, &mut self.steps, Ok(Step::Sync)) {
            self.last_error = Some(error);
            return Err(error);
        }
        match self.device.sync() {
            Ok(()) => {
                self.last_error = None;
                Ok(())
            }
            Err(error) => {
                self.last_error = Some(error);
                Err(error)
            }
        }
    }
}
