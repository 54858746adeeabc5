mod channels;
mod driving;
mod making;
