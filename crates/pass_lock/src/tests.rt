mod crowd;
mod nested;
mod notes;
mod shelf;
